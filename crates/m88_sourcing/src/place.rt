//! Numbers and places that words of the program write.
ghost use Rattle.std.specs.Prelude.{◌≡◌, ◌+◌, ◌*◌, ◌-◌, ◌/◌, ◌<◌, ◌≤◌, ◌^◌, ◌++◌, ℕ, IfSome, OnOk, Some};
ghost use Rattle.m88_sourcing.specs.Places.{AreWithin, IsNumberWord, IsPlacesWord, IsRangeEnd, addresses_of, up_to};
ghost use Rattle.m88_sourcing.specs.declared.place.Places.{Places as Kept};

use m88_base::{decimal_in, number_in, split_at_byte};
use std::alloc::AllocError;

/// How far apart places are where that isn't said, in bytes.
const WORD_STEP: u32 = 4;

/// Addresses that are equally far apart.
#[derive(Clone, Copy, PartialEq, Eq, Debug)]
pub(crate) struct Places {
    pub first: u32,
    pub step: u32,
    pub count: usize,
}

/// The number that a word writes: in decimal digits without a needless 0, or as 0x and hexadecimal digits.
pub(crate) fn number(word: &[u8]) -> Option<u32>
    ensures found { IfSome result (λ n. IsNumberWord word.now n) }
    ensures only { (n : ℕ) → IsNumberWord word.now n → result ≡ Some n }
{
    match word {
        [b'0', b'x', digits @ ..] => number_in(16, digits, u32::MAX),
        _ => decimal_in(word, u32::MAX),
    }
}

/// The places from an address on up to another, so far apart; None where that isn't behind the first, or they are not
/// apart.
fn up_to(first: u32, last: u32, step: u32) -> Option<Places>
    ensures found { IfSome result (λ p. (p ≡ up_to first last step) × (first ≤ last) × (0 < step)) }
    ensures only { first ≤ last → 0 < step → result ≡ Some (up_to first last step) }
    ensures within { IfSome result AreWithin }
{
    if last < first || step == 0 {
        return None;
    }
    let steps = (last - first) / step;
    Some(Places {
        first,
        step,
        count: steps as usize + 1,
    })
}

/// The places from an address on that what stands behind it and a `-` writes.
fn range_from(first: u32, text: &[u8]) -> Option<Places>
    ensures found { IfSome result (λ p. IsRangeEnd first text.now p) }
    ensures only { (p : Kept) → IsRangeEnd first text.now p → result ≡ Some p }
    ensures within { IfSome result AreWithin }
{
    match split_at_byte(b'/', text) {
        Some((last, step)) => up_to(first, number(last)?, number(step)?),
        None => up_to(first, number(text)?, WORD_STEP),
    }
}

/// The places that a word writes.
pub(crate) fn places_in(word: &[u8]) -> Option<Places>
    ensures found { IfSome result (λ p. IsPlacesWord word.now p) }
    ensures only { (p : Kept) → IsPlacesWord word.now p → result ≡ Some p }
    ensures within { IfSome result AreWithin }
{
    match split_at_byte(b'-', word) {
        Some((first, behind)) => range_from(number(first)?, behind),
        None => {
            let at = number(word)?;
            up_to(at, at, WORD_STEP)
        }
    }
}

/// Appends the addresses of places.
pub(crate) fn push_places(addresses: &mut Vec<u32>, places: Places) -> Result<(), AllocError>
    requires { AreWithin places }
    ensures { OnOk result
        (addresses.new.items ≡ addresses.old.items ++ addresses_of places) }
{
    let mut at = u64::from(places.first);
    for _ in 0..places.count {
        addresses.push(at as u32)?;
        at += u64::from(places.step);
    }
    Ok(())
}
