//! The numbers of the general registers.
ghost use Rattle.std.specs.Prelude.{◌≡◌, ◌<◌, ◌%◌, ◌↔◌, IsSome, IfSome};

/// The number of a general register, 0 to 31.
#[derive(Clone, Copy, PartialEq, Eq, Debug)]
pub struct Reg {
    n: u8,
    pub ghost in_range: { n < 32 },
}

impl Reg {
    ghost use Rattle.m88_base.specs.Reg.{number_of, reg_of};

    /// r0, whose value is always 0.
    pub const ZERO: Reg = Reg { n: 0 };

    /// The register of a number, or None where the number is above 31.
    pub fn new(n: u32) -> Option<Reg>
        ensures valid { IsSome result ↔ (n < 32) }
        ensures value { IfSome result (λ r. r ≡ reg_of n) }
        ensures number { IfSome result (λ r. number_of r ≡ n) }
    {
        if n < 32 {
            Some(Reg { n: n as u8 })
        } else {
            None
        }
    }

    /// The register that the five low bits of a number name, as a field of an instruction word does.
    pub fn from_low_bits(n: u32) -> Reg
        ensures value { result ≡ reg_of n }
        ensures number { number_of result ≡ n % 32 }
    {
        Reg { n: (n % 32) as u8 }
    }

    /// The number, 0 to 31.
    pub fn number(self) -> u32
        ensures value { result ≡ number_of self }
        ensures bound { result < 32 }
    {
        self.n as u32
    }

    /// The number as an index into the 32 registers.
    pub fn index(self) -> usize
        ensures value { result ≡ number_of self }
        ensures bound { result < 32 }
    {
        self.n as usize
    }
}

impl Default for Reg {
    ghost use Rattle.m88_base.specs.Reg.{reg_of};

    ghost is_default = { λ r. r ≡ reg_of 0 };

    fn default() -> Reg {
        Reg::ZERO
    }
}
