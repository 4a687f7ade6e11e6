//! Signed division of words.

ghost use Rattle.std.specs.Prelude.{◌≡◌, ◌≤◌, ◌^◌};
ghost use Rattle.m88_emul.specs.Aid.{is_negative, magnitude, quotient_of, signed_word};

/// The quotient of two words read as signed numbers, rounded towards 0. None by 0, and where it is 2^31, which no word
/// is.
pub(crate) fn quotient(s: u32, t: u32) -> Option<u32>
    ensures { result ≡ quotient_of s t }
{
    if t == 0 {
        return None;
    }
    signed_word(
        is_negative(s) != is_negative(t),
        magnitude(s) / magnitude(t),
    )
}

/// Whether a word read as a signed number is negative.
fn is_negative(s: u32) -> bool
    ensures { result ≡ is_negative s }
{
    s >= 1 << 31
}

/// How far that number is from 0.
fn magnitude(s: u32) -> u32
    ensures value { result ≡ magnitude s }
    ensures zero { result ≡ 0 → s ≡ 0 }
{
    if is_negative(s) { s.wrapping_neg() } else { s }
}

/// The word of a signed number so far from 0. None where it is 2^31 or more.
fn signed_word(is_negative: bool, far: u32) -> Option<u32>
    requires { far ≤ 2 ^ 31 }
    ensures { result ≡ signed_word is_negative far }
{
    if is_negative {
        Some(far.wrapping_neg())
    } else if far < 1 << 31 {
        Some(far)
    } else {
        None
    }
}
