//! The vectors that instructions raise ("Exception Processing": exception vectors).

ghost use Rattle.std.specs.Prelude.{◌≡◌, ◌<◌, ◌≤◌};
ghost use Rattle.m88_isa.specs.Vector.{unit_vector};

/// An instruction that can't be fetched.
pub const INSTRUCTION_ACCESS: u16 = 2;

/// An access to data memory that can't be made.
pub const DATA_ACCESS: u16 = 3;

/// An access to memory that isn't aligned to its size, with MXM clear.
pub const MISALIGNED: u16 = 4;

/// An instruction that isn't implemented.
pub const UNIMPLEMENTED: u16 = 5;

/// An instruction for the supervisor alone.
pub const PRIVILEGE: u16 = 6;

/// A bounds check that fails.
pub const OUT_OF_BOUNDS: u16 = 7;

/// A division by 0, or a signed one where either number is negative.
pub const BAD_DIVISION: u16 = 8;

/// A signed sum or difference that doesn't fit a word.
pub const OVERFLOW: u16 = 9;

/// The first vector that a program may trap to.
pub const FIRST_USER_VECTOR: u16 = 128;

/// The vector of a word of special function unit 1 to 7.
pub(crate) fn unit_vector(unit: u8) -> u16
    requires { (1 ≤ unit) × (unit < 8) }
    ensures { result ≡ unit_vector unit }
{
    if unit == 1 {
        114
    } else {
        116 + 2 * (unit as u16 - 2)
    }
}
