//! Reading the text of a schedule: that of one program, and that of programs that share a board.

ghost use Rattle.std.specs.Prelude.{[], ◌∷◌, ◌≡◌, ◌↔◌, List, ℕ, IfSome, IsTrue, Some, false, option_map};
ghost use Rattle.m88_event.specs.Letters.{AreLettersIn, HasLetters, is_letter};

/// The most letters of a schedule.
const MOST_LETTERS: usize = 65_536;

/// The letters of a schedule's text, a byte each: none for `-`, else 1 to 65,536 bytes `i`, `r`, `e` and some others.
/// None for any other text.
pub fn letters_in<'a>(text: &'a str, others: &[u8]) -> Option<&'a [u8]>
    requires { is_letter others.now 0x2D ≡ false }
    ensures found { IfSome result (λ letters. AreLettersIn others.now text.now letters.now) }
    ensures only { (letters : List ℕ) → AreLettersIn others.now text.now letters
        → option_map (λ found. found.now) result ≡ Some letters }
{
    let bytes = text.as_bytes();
    if is_dash(bytes) {
        Some(&[])
    } else if are_letters(bytes, others) {
        Some(bytes)
    } else {
        None
    }
}

/// Whether it is `-` alone.
fn is_dash(bytes: &[u8]) -> bool
    ensures { IsTrue result ↔ (bytes.now ≡ 0x2D ∷ []) }
{
    if let [b'-'] = bytes { true } else { false }
}

/// Whether it is 1 to 65,536 bytes `i`, `r`, `e` and some others.
fn are_letters(bytes: &[u8], others: &[u8]) -> bool
    ensures { IsTrue result ↔ HasLetters others.now bytes.now }
{
    1 <= bytes.len()
        && bytes.len() <= MOST_LETTERS
        && bytes.iter().all(|byte| is_letter(*byte, others))
}

/// Whether a byte is `i`, `r`, `e` or one of some others.
fn is_letter(byte: u8, others: &[u8]) -> bool
    ensures { result ≡ is_letter others.now byte }
{
    byte == b'i' || byte == b'e' || byte == b'r' || others.contains(&byte)
}
