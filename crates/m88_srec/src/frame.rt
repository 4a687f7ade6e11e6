//! Records as lines: their bytes framed by count and sum, and written in digits.
ghost use Rattle.std.specs.Prelude.{◌≡◌, ◌+◌, ◌*◌, ◌≤◌, ◌∷◌, ◌++◌, length, OnOk};
ghost use Rattle.std.specs.Int.{to_be_bytes, w32};
ghost use Rattle.std.specs.List.{flat_map};
ghost use Rattle.m88_base.specs.Hex.{hex2};
ghost use Rattle.m88_base.specs.Lines.{line_end};
ghost use Rattle.m88_srec.specs.Records.{framed, letter_s};
ghost use Rattle.m88_srec.specs.Written.{data_line, last_line, header_line, record_line};

use crate::record::check_of;
use arrayvec::ArrayVec;
use m88_base::hex_digit;
use std::alloc::AllocError;

/// The most bytes of data in a record that is written.
pub const MOST_DATA: usize = 16;

/// The most bytes of the body of a record that is written: an address and data.
const MOST_BODY: usize = 4 + MOST_DATA;

/// The most bytes of a record that is written: the count, a body and the sum.
const MOST_RECORD: usize = MOST_BODY + 2;

/// The most bytes of the line of a record that is written: the letter, a digit, two for each byte, and its end.
const MOST_LINE: usize = 2 + 2 * MOST_RECORD + 1;

/// The bytes of a record: the count, the body and the sum.
fn framed(body: &[u8]) -> ArrayVec<u8, MOST_RECORD>
    requires { length body.now ≤ MOST_BODY }
    ensures { result.items ≡ framed body.now }
{
    let mut bytes = ArrayVec::new();
    bytes.push(body.len() as u8 + 1);
    for byte in body {
        bytes.push(*byte);
    }
    let sum = check_of(bytes.as_slice());
    bytes.push(sum);
    bytes
}

/// Appends a byte in two digits.
fn push_pair(line: &mut ArrayVec<u8, MOST_LINE>, byte: u8)
    requires { length line.old.items + 2 ≤ MOST_LINE }
    ensures { line.new.items ≡ line.old.items ++ hex2 byte }
{
    line.push(hex_digit(u32::from(byte >> 4)));
    line.push(hex_digit(u32::from(byte & 15)));
}

/// The line of a record with a type digit, from its bytes.
fn line_of(digit: u8, bytes: &[u8]) -> ArrayVec<u8, MOST_LINE>
    requires { length bytes.now ≤ MOST_RECORD }
    ensures { result.items ≡ (letter_s ∷ digit ∷ flat_map hex2 bytes.now) ++ line_end }
{
    let mut line = ArrayVec::new();
    line.push(b'S');
    line.push(digit);
    for byte in bytes {
        push_pair(&mut line, *byte);
    }
    line.push(b'\n');
    line
}

/// An address and the bytes from it on.
fn data_body(at: u32, given: &[u8]) -> ArrayVec<u8, MOST_BODY>
    requires { length given.now ≤ MOST_DATA }
    ensures { result.items ≡ to_be_bytes w32 at ++ given.now }
{
    let mut body = ArrayVec::new();
    for byte in at.to_be_bytes() {
        body.push(byte);
    }
    for byte in given {
        body.push(*byte);
    }
    body
}

/// Appends the line of a record with a type digit and a body.
#[tactic(auto, unfolding(crate::specs::Written::record_line))]
fn push_record(text: &mut Vec<u8>, digit: u8, body: &[u8]) -> Result<(), AllocError>
    requires { length body.now ≤ MOST_BODY }
    ensures { OnOk result (text.new.items ≡ text.old.items ++ (record_line digit body.now
        ++ line_end)) }
{
    let bytes = framed(body);
    text.extend_from_slice(line_of(digit, bytes.as_slice()).as_slice())?;
    Ok(())
}

/// Appends the line that heads a text.
pub fn push_header(text: &mut Vec<u8>) -> Result<(), AllocError>
    ensures { OnOk result (text.new.items ≡ text.old.items ++ (header_line ++ line_end)) }
{
    push_record(text, b'0', b"\0\0M88")
}

/// Appends the line of some bytes from an address on.
pub fn push_data(text: &mut Vec<u8>, at: u32, given: &[u8]) -> Result<(), AllocError>
    requires { length given.now ≤ MOST_DATA }
    ensures { OnOk result (text.new.items ≡ text.old.items ++ (data_line at given.now
        ++ line_end)) }
{
    push_record(text, b'3', data_body(at, given).as_slice())
}

/// Appends the line that ends a text with the start address.
pub fn push_end(text: &mut Vec<u8>, start: u32) -> Result<(), AllocError>
    ensures { OnOk result (text.new.items ≡ text.old.items ++ (last_line start ++ line_end)) }
{
    push_record(text, b'7', &start.to_be_bytes())
}
