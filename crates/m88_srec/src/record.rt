//! The form of a line: an `S`, a type digit and pairs of hexadecimal digits; and what stands in its bytes.
ghost use Rattle.std.specs.Prelude.{◌≡◌, ◌+◌, ◌-◌, ◌<◌, ◌≤◌, false, length, option_map, sum, take, IfSome};
ghost use Rattle.m88_srec.specs.Front.{most_kept};
ghost use Rattle.m88_srec.specs.Records.{check_of, is_bare, type_of};
ghost use Rattle.m88_srec.specs.Accepted.{address_of};
ghost use Rattle.m88_srec.specs.Verdict.{following, record_form, is_miscounted, written_count};
ghost use Rattle.m88_srec.specs.Inside.Forms.{IsAddressWidth, form_seen, type_seen};

use crate::digits::{MOST_RECORD_BYTES, bytes_of};
use crate::form::Form;
use crate::purpose::Purpose;

/// What a type digit says: the purpose of a record and the number of its address bytes.
fn type_of(digit: u8) -> Option<(Purpose, usize)>
    ensures value { option_map type_seen result ≡ type_of digit }
    ensures width { IfSome result (λ t. IsAddressWidth t.1) }
{
    match digit {
        b'0' => Some((Purpose::Header, 2)),
        b'1' => Some((Purpose::Data, 2)),
        b'2' => Some((Purpose::Data, 3)),
        b'3' => Some((Purpose::Data, 4)),
        b'5' => Some((Purpose::Tally, 2)),
        b'7' => Some((Purpose::End, 4)),
        b'8' => Some((Purpose::End, 3)),
        b'9' => Some((Purpose::End, 2)),
        _ => None,
    }
}

/// Whether records of this purpose have no data.
fn is_bare(purpose: Purpose) -> bool
    ensures { result ≡ is_bare purpose }
{
    match purpose {
        Purpose::Header => false,
        Purpose::Data => false,
        Purpose::Tally => true,
        Purpose::End => true,
    }
}

/// The form of a line, where it has one, with its bytes in the front of the room for them.
#[tactic(auto, unfolding(crate::specs::Verdict::record_form))]
pub fn record_form<'a>(line: &[u8], room: &'a mut [u8; MOST_RECORD_BYTES]) -> Option<Form<'a>>
    requires { length line.now ≤ most_kept }
    ensures { option_map form_seen result ≡ record_form line.now }
{
    let [b'S', digit, digits @ ..] = line else {
        return None;
    };
    let total = bytes_of(digits, room)?;
    if digits.is_empty() {
        return None;
    }
    let (purpose, width) = type_of(*digit)?;
    Some(Form {
        purpose,
        width,
        bytes: &room[..digits.len() / 2],
        total,
    })
}

impl Form<'_> {
    /// The count that is written.
    pub fn count(&self) -> u8
        ensures { result ≡ written_count (form_seen self.now) }
    {
        self.bytes[0]
    }

    /// The number of bytes that follow the count.
    pub fn following(&self) -> usize
        ensures { result ≡ following (form_seen self.now) }
    {
        self.bytes.len() - 1
    }

    /// Whether the count is wrong, there are too few bytes, or a record that has no data has some.
    pub fn is_miscounted(&self) -> bool
        ensures value { result ≡ is_miscounted (form_seen self.now) }
        ensures enough { result ≡ false → self.now.width + 1 ≤ following (form_seen self.now) }
    {
        let following = self.following();
        usize::from(self.count()) != following
            || following < self.width + 1
            || is_bare(self.purpose) && following != self.width + 1
    }
}

/// The sum of a record with these bytes before it.
pub fn check_of(bytes: &[u8]) -> u8
    requires { length bytes.now ≤ 256 }
    ensures { result ≡ check_of bytes.now }
{
    let sum: u32 = bytes.iter().map(|b| u32::from(*b)).sum();
    255 - (sum % 256) as u8
}

/// The sum that the bytes of a record before their last make, where all of them add up to `total`.
#[tactic(auto, using(crate::proofs::Framing::last_within, crate::proofs::Framing::without_last))]
pub fn computed_sum(bytes: &[u8], total: u32) -> u8
    requires some { 0 < length bytes.now }
    requires total { total ≡ sum bytes.now }
    ensures { result ≡ check_of (take (length bytes.now - 1) bytes.now) }
{
    let written = bytes[bytes.len() - 1];
    255 - ((total - u32::from(written)) % 256) as u8
}

/// The address that bytes write, or the number in its place, the highest byte first.
pub fn address_of(bytes: &[u8]) -> u32
    requires { IsAddressWidth (length bytes.now) }
    ensures { result ≡ address_of bytes.now }
{
    match bytes {
        [a, b] => u32::from_be_bytes([0, 0, *a, *b]),
        [a, b, c] => u32::from_be_bytes([0, *a, *b, *c]),
        [a, b, c, d] => u32::from_be_bytes([*a, *b, *c, *d]),
        _ => unreachable!(),
    }
}
