//! Numbers that a text writes by digits of any count, up to a limit.
ghost use Rattle.std.specs.Prelude.{◌≡◌, ◌≤◌, ◌++◌, ℕ, IfSome, OnOk, Some, decimal};
ghost use Rattle.m88_base.specs.Numerals.{decimal_in, has_no_needless_zero, number_in};

use itoa::Buffer;
use std::alloc::AllocError;

/// The number that digits of a base write, zeros in front allowed and letters of either case, or None
/// where the text is anything else or writes a number above `most`.
pub fn number_in(base: u32, text: &[u8], most: u32) -> Option<u32>
    requires low { 2 ≤ base }
    requires high { base ≤ 16 }
    ensures value { result ≡ number_in base most text.now }
    ensures bound { IfSome result (λ n. n ≤ most) }
{
    if text.is_empty() {
        return None;
    }
    let mut value: u64 = 0;
    for byte in text {
        let Some(digit) = char::from(*byte).to_digit(base) else {
            return None;
        };
        value = value * (base as u64) + digit as u64;
        if value > most as u64 {
            return None;
        }
    }
    Some(value as u32)
}

/// The number that decimal digits without a needless zero write, or None where the text is anything
/// else or writes a number above `most`.
pub fn decimal_in(text: &[u8], most: u32) -> Option<u32>
    ensures value { result ≡ decimal_in most text.now }
    ensures bound { IfSome result (λ n. n ≤ most) }

    // The law that reading is the inverse of writing.
    ensures found { IfSome result (λ n. text.now ≡ decimal n) }
    ensures only { (n : ℕ) → n ≤ most → text.now ≡ decimal n → result ≡ Some n }
{
    if has_no_needless_zero(text) {
        number_in(10, text, most)
    } else {
        None
    }
}

/// Whether a text begins with a 0 only where that is all of it.
fn has_no_needless_zero(text: &[u8]) -> bool
    ensures { result ≡ has_no_needless_zero text.now }
{
    text.len() == 1 || text.first() != Some(&b'0')
}

/// Appends a number in decimal, without needless zeros.
pub fn push_decimal(text: &mut Vec<u8>, n: u64) -> Result<(), AllocError>
    ensures { OnOk result (text.new.items ≡ text.old.items ++ decimal n) }
{
    let mut buffer = Buffer::new();
    text.extend_from_slice(buffer.format(n).as_bytes())
}
