//! The fields of words that take the value of a symbol.
ghost use Rattle.std.specs.Prelude.{◌≡◌, ◌+◌, ◌-◌, ◌^◌, ◌%◌, ◌≤◌, ◌<◌, ◌==◌, ◌&&◌, ◌||◌, length};
ghost use Rattle.m88_link.specs.Field.{distance, is_in_reach, is_near, patched_word};
ghost use Rattle.m88_link.specs.Relocated.{patched};

use byteorder::{BigEndian, ByteOrder};
use m88_base::Kind;

/// The displacement from an address to a target, modulo 2^32.
pub fn distance(target: u32, at: u32) -> u32
    ensures { result ≡ distance target at }
{
    target.wrapping_sub(at)
}

/// Whether a displacement is a multiple of 4 that, in words, a signed field of `width` bits takes.
fn is_near(width: u32, d: u32) -> bool
    requires { 2 ^ (width + 1) ≤ 2 ^ 31 }
    ensures { result ≡ is_near width d }
{
    let reach = 2_u32.pow(width + 1);
    d % 4 == 0 && (d < reach || u32::MAX - reach < d)
}

/// Whether the field of the word at an address can take the displacement to a target.
pub fn is_in_reach(kind: Kind, target: u32, at: u32) -> bool
    ensures { result ≡ is_in_reach kind target at }
{
    match kind {
        Kind::Pc26 => is_near(26, distance(target, at)),
        Kind::Pc16 => is_near(16, distance(target, at)),
        Kind::Hi16 | Kind::Lo16 | Kind::Abs32 => true,
    }
}

/// A word with its field filled for a target.
fn patched_word(kind: Kind, word: u32, target: u32, at: u32) -> u32
    ensures { result ≡ patched_word kind word target at }
{
    match kind {
        Kind::Hi16 => (word >> 16 << 16) + (target >> 16),
        Kind::Lo16 => (word >> 16 << 16) + target % (1 << 16),
        Kind::Pc26 => (word >> 26 << 26) + (distance(target, at) >> 2) % (1 << 26),
        Kind::Pc16 => (word >> 16 << 16) + (distance(target, at) >> 2) % (1 << 16),
        Kind::Abs32 => target,
    }
}

/// Patches the word at an offset, which stands at the address `at`, for a target.
pub fn patch(bytes: &mut [u8], offset: usize, kind: Kind, target: u32, at: u32)
    requires { offset + 4 ≤ length bytes.old }
    ensures { bytes.new ≡ patched kind bytes.old offset target at }
{
    let word = BigEndian::read_u32(&bytes[offset..]);
    BigEndian::write_u32(&mut bytes[offset..], patched_word(kind, word, target, at));
}
