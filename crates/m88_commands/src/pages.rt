//! The word of a command that says which pages are absent.
ghost use Rattle.std.specs.Prelude.{ℕ, ◌≡◌, ◌≢◌, ◌≤◌, ◌++◌, ◌∷◌, [], All, List, IfSome, None, OnSome, Some, codes, length};
ghost use Rattle.m88_base.specs.Pages.{IsPage};
ghost use Rattle.m88_mem.specs.Marks.{NamesPages, absent_in};
ghost use Rattle.m88_session.specs.Reading.{ReadsValue};
ghost use Rattle.m88_commands.specs.Inside.Reading.{ReadsFit};
ghost use Rattle.m88_commands.specs.Pages.{ArePageNumbers, IsAbsent, IsPageNumber, most_numbers};

use arrayvec::ArrayVec;
use m88_base::{Absent, PAGE_COUNT, split_at_byte};
use m88_session::{decimal_number, hexadecimal_number};

/// The most page numbers that a text may have.
const MOST_NUMBERS: usize = 64;

/// The greatest number of a page.
const LAST_PAGE: u32 = PAGE_COUNT as u32 - 1;

/// The absent pages that a text says: `none`, `all`, or 1 to 64 page numbers joined by commas. None for any other text.
pub fn absent_of(text: &str) -> Option<Absent>
    ensures { ReadsFit (IsAbsent text.now) absent_in NamesPages result }
{
    if text == "none" {
        return Some(Absent::None);
    }
    if text == "all" {
        return Some(Absent::All);
    }
    let numbers = page_numbers(text.as_bytes())?;
    Some(Absent::Pages(numbers))
}

/// The page numbers that a text joins by commas.
fn page_numbers(text: &[u8]) -> Option<ArrayVec<u32, MOST_NUMBERS>>
    ensures { ReadsFit (λ ns. ArePageNumbers text.now ns × (length ns ≤ most_numbers))
        (λ numbers. numbers.items) (λ numbers. All IsPage numbers.items) result }
{
    let mut numbers = ArrayVec::new();
    let mut rest = text;
    while let Some((first, others)) = split_at_byte(b',', rest) {
        add_number(&mut numbers, first)?;
        rest = others;
    }
    add_number(&mut numbers, rest)?;
    Some(numbers)
}

/// Appends the page number that a text writes, or answers None where it writes none or there is no room.
fn add_number(numbers: &mut ArrayVec<u32, MOST_NUMBERS>, text: &[u8]) -> Option<()>
    ensures added { OnSome result ((n : ℕ) × IsPageNumber text.now n
        × (numbers.new.items ≡ numbers.old.items ++ n ∷ [])) }
    ensures room { OnSome result (length numbers.new.items ≤ most_numbers) }
    ensures below { OnSome result (All IsPage numbers.old.items
        → All IsPage numbers.new.items) }
    ensures full { result ≡ None → (n : ℕ) → IsPageNumber text.now n
        → most_numbers ≤ length numbers.old.items }
{
    let number = page_number(text)?;
    if numbers.is_full() {
        return None;
    }
    numbers.push(number);
    Some(())
}

/// The number of a page that a text writes.
fn page_number(text: &[u8]) -> Option<u32>
    ensures { ReadsValue (IsPageNumber text.now) result }
{
    match after_0x(text) {
        Some(digits) => hexadecimal_number(5, digits, LAST_PAGE),
        None => decimal_number(7, text, LAST_PAGE),
    }
}

/// What stands behind `0x`.
fn after_0x(text: &[u8]) -> Option<&[u8]>
    ensures found { IfSome result (λ digits. text.now ≡ codes "0x" ++ digits.now) }
    ensures none { result ≡ None → (digits : List ℕ) → text.now ≢ codes "0x" ++ digits }
{
    text.strip_prefix(b"0x".as_slice())
}
