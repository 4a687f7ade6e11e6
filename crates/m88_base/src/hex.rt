//! Words and bytes in upper-case hexadecimal digits, written and read.
ghost use Rattle.std.specs.Prelude.{◌≡◌, ◌<◌, ◌^◌, ◌++◌, ℕ, IfSome, Some, OnOk};
ghost use Rattle.std.specs.List.{list_all};
ghost use Rattle.m88_base.specs.Hex.{hex_digit, hex2, hex8, hex8_of, is_hex8, is_hex_digit};

use crate::numerals::number_in;
use std::alloc::AllocError;
use std::fmt;
use std::str::from_utf8;

/// The digit of a number below 16, no letter of lower case.
pub fn hex_digit(d: u32) -> u8
    requires { d < 16 }
    ensures { result ≡ hex_digit d }
{
    if d < 10 {
        b'0' + d as u8
    } else {
        b'A' + (d - 10) as u8
    }
}

/// The two digits of each byte, from 0 on.
const PAIRS: [u8; 512] = *b"000102030405060708090A0B0C0D0E0F101112131415161718191A1B1C1D1E1F\
    202122232425262728292A2B2C2D2E2F303132333435363738393A3B3C3D3E3F\
    404142434445464748494A4B4C4D4E4F505152535455565758595A5B5C5D5E5F\
    606162636465666768696A6B6C6D6E6F707172737475767778797A7B7C7D7E7F\
    808182838485868788898A8B8C8D8E8F909192939495969798999A9B9C9D9E9F\
    A0A1A2A3A4A5A6A7A8A9AAABACADAEAFB0B1B2B3B4B5B6B7B8B9BABBBCBDBEBF\
    C0C1C2C3C4C5C6C7C8C9CACBCCCDCECFD0D1D2D3D4D5D6D7D8D9DADBDCDDDEDF\
    E0E1E2E3E4E5E6E7E8E9EAEBECEDEEEFF0F1F2F3F4F5F6F7F8F9FAFBFCFDFEFF";

/// The two digits of a byte.
fn byte_digits(n: u8) -> [u8; 2]
    ensures { result ≡ hex2 n }
{
    let from = usize::from(n) * 2;
    [PAIRS[from], PAIRS[from + 1]]
}

/// A word in eight digits.
pub fn word_digits(n: u32) -> [u8; 8]
    ensures { result ≡ hex8 n }
{
    let [first, second, third, fourth] = n.to_be_bytes();
    let [a, b] = byte_digits(first);
    let [c, d] = byte_digits(second);
    let [e, f] = byte_digits(third);
    let [g, h] = byte_digits(fourth);
    [a, b, c, d, e, f, g, h]
}

/// Appends a word in eight digits.
pub fn push_hex8(text: &mut Vec<u8>, n: u32) -> Result<(), AllocError>
    ensures { OnOk result (text.new.items ≡ text.old.items ++ hex8 n) }
{
    text.extend_from_slice(&word_digits(n))
}

/// Appends a byte in two digits.
pub fn push_hex2(text: &mut Vec<u8>, n: u8) -> Result<(), AllocError>
    ensures { OnOk result (text.new.items ≡ text.old.items ++ hex2 n) }
{
    text.extend_from_slice(&byte_digits(n))
}

/// A word that is printed in eight digits.
#[derive(Clone, Copy, PartialEq, Eq, Debug)]
pub struct Hex8(pub u32);

impl fmt::Display for Hex8 {
    ghost use Rattle.std.specs.Prelude.{Some};
    ghost use Rattle.m88_base.specs.Hex.{hex8};

    ghost output = { λ word. Some (hex8 word.0) };

    fn fmt<W: fmt::Write>(&self, f: &mut fmt::Formatter<W>) -> fmt::Result {
        match from_utf8(&word_digits(self.0)) {
            Ok(text) => f.write_str(text),
            Err(_) => unreachable!(),
        }
    }
}

/// A byte that is printed in two digits.
#[derive(Clone, Copy, PartialEq, Eq, Debug)]
pub struct Hex2(pub u8);

impl fmt::Display for Hex2 {
    ghost use Rattle.std.specs.Prelude.{Some};
    ghost use Rattle.m88_base.specs.Hex.{hex2};

    ghost output = { λ byte. Some (hex2 byte.0) };

    fn fmt<W: fmt::Write>(&self, f: &mut fmt::Formatter<W>) -> fmt::Result {
        match from_utf8(&byte_digits(self.0)) {
            Ok(text) => f.write_str(text),
            Err(_) => unreachable!(),
        }
    }
}

/// Whether a byte is a digit as they are written, no letter of lower case.
fn is_hex_digit(b: u8) -> bool
    ensures { result ≡ is_hex_digit b }
{
    matches!(b, b'0'..=b'9' | b'A'..=b'F')
}

/// Whether each byte is a digit as they are written.
fn are_hex_digits(text: &[u8]) -> bool
    ensures { result ≡ list_all is_hex_digit text.now }
{
    text.iter().all(|b| is_hex_digit(*b))
}

/// Whether a text is eight digits.
fn is_hex8(text: &[u8]) -> bool
    ensures { result ≡ is_hex8 text.now }
{
    text.len() == 8 && are_hex_digits(text)
}

/// The word that eight digits write, or None where the text is anything else.
pub fn hex8_of(text: &[u8]) -> Option<u32>
    ensures value { result ≡ hex8_of text.now }

    // The law that reading and writing are each other's inverse.
    ensures found { IfSome result (λ n. text.now ≡ hex8 n) }
    ensures only { (n : ℕ) → n < 2 ^ 32 → text.now ≡ hex8 n → result ≡ Some n }
{
    if is_hex8(text) {
        number_in(16, text, u32::MAX)
    } else {
        None
    }
}
