//! Pairs of hexadecimal digits.
ghost use Rattle.std.specs.Prelude.{◌≡◌, ◌≤◌, ◌&&◌, false, length, MatchOption};
ghost use Rattle.std.specs.Char.{is_digit};
ghost use Rattle.m88_srec.specs.Inside.Forms.{WritePairs, WritesByte};
ghost use Rattle.m88_srec.specs.Records.{are_more_pairs};

use m88_base::digit_value;

/// The most bytes that a record has.
pub const MOST_RECORD_BYTES: usize = 256;

/// Puts the bytes that pairs of hexadecimal digits write in the front of their room, half as many as there are digits,
/// and answers what they add up to; None where the digits are no such pairs. What the room has is written over, so it
/// need not be cleared.
#[tactic(auto, using(crate::proofs::Framing::sum_more))]
pub fn bytes_of(digits: &[u8], room: &mut [u8; MOST_RECORD_BYTES]) -> Option<u32>
    requires { length digits.now ≤ 512 }
    ensures { MatchOption result
        (are_more_pairs digits.now ≡ false) (WritePairs digits.now room.new) }
{
    let mut total = 0;
    let mut count = 0;
    let mut rest = digits;
    while let [high, low, left @ ..] = rest {
        let byte = byte_of(*high, *low)?;
        total += u32::from(byte);
        room[count] = byte;
        count += 1;
        rest = left;
    }
    if rest.is_empty() { Some(total) } else { None }
}

/// Whether a byte is a hexadecimal digit of either case.
pub fn is_hexadecimal(digit: u8) -> bool
    ensures { result ≡ is_digit digit 16 }
{
    digit_value(digit) < 16
}

/// The byte that two hexadecimal digits write, None where one of them is no such digit. Each is looked up once.
fn byte_of(high: u8, low: u8) -> Option<u8>
    ensures { MatchOption result
        ((is_digit high 16 && is_digit low 16) ≡ false) (WritesByte high low) }
{
    let (high, low) = (digit_value(high), digit_value(low));
    if high < 16 && low < 16 {
        Some(high * 16 + low)
    } else {
        None
    }
}
