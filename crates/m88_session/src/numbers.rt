//! Numbers in the words of a command and in the lines of a script.
ghost use Rattle.std.specs.Prelude.{◌≤◌};
ghost use Rattle.m88_session.specs.Reading.{ReadsNumber};

use m88_base::number_in;

/// The number, at most `most`, that a text writes in one to so many decimal digits, zeros in front allowed.
pub fn decimal_number(most_digits: usize, text: &[u8], most: u32) -> Option<u32>
    ensures { ReadsNumber 10 most_digits most text.now result }
{
    short_number(10, most_digits, text, most)
}

/// The same in hexadecimal digits of either case.
pub fn hexadecimal_number(most_digits: usize, text: &[u8], most: u32) -> Option<u32>
    ensures { ReadsNumber 16 most_digits most text.now result }
{
    short_number(16, most_digits, text, most)
}

/// The same in digits of a base.
fn short_number(base: u32, most_digits: usize, text: &[u8], most: u32) -> Option<u32>
    requires low { 2 ≤ base }
    requires high { base ≤ 16 }
    ensures { ReadsNumber base most_digits most text.now result }
{
    if text.len() <= most_digits {
        number_in(base, text, most)
    } else {
        None
    }
}
