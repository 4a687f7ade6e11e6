//! The word that four bytes of memory are.

ghost use Rattle.std.specs.Prelude.{ℕ, ◌≡◌, ◌≤◌, ◌<◌, ◌^◌, length, take};
ghost use Rattle.std.specs.Int.{from_be_bytes, to_be_bytes, w32};

use byteorder::{BigEndian, ByteOrder};

/// The word that the first four bytes are, the highest byte first.
pub fn word_at(bytes: &[u8]) -> u32
    requires { 4 ≤ length bytes.now }
    ensures value { result ≡ from_be_bytes w32 (take 4 bytes.now) }
    ensures bytes { to_be_bytes w32 result ≡ take 4 bytes.now }
    ensures only { (n : ℕ) → n < 2 ^ 32 → to_be_bytes w32 n ≡ take 4 bytes.now → result ≡ n }
{
    BigEndian::read_u32(bytes)
}
