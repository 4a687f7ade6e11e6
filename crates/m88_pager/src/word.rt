//! The words of a page.

ghost use Rattle.std.specs.Prelude.{◌≡◌, ◌+◌, ◌++◌, ◌≤◌, drop, length, take};
ghost use Rattle.std.specs.Int.{from_be_bytes, to_be_bytes, w32};

use byteorder::{BigEndian, ByteOrder};

/// The big-endian word at a place of some bytes.
pub(crate) fn word_at(bytes: &[u8], place: usize) -> u32
    requires { place + 4 ≤ length bytes.now }
    ensures { result ≡ from_be_bytes w32 (take 4 (drop place bytes.now)) }
{
    BigEndian::read_u32(&bytes[place..])
}

/// Puts a word there.
pub(crate) fn put_word(bytes: &mut [u8], place: usize, word: u32)
    requires { place + 4 ≤ length bytes.old }
    ensures { bytes.new
        ≡ take place bytes.old ++ (to_be_bytes w32 word ++ drop (place + 4) bytes.old) }
{
    BigEndian::write_u32(&mut bytes[place..], word);
}
