//! An input parted at one of its lines.
ghost use Rattle.std.specs.Prelude.{ℕ, ◌≡◌, ◌+◌, ◌^◌, ◌<◌, ◌≤◌, List, IfErr, IfOk, MatchResult, length};
ghost use Rattle.m88_base.specs.Parted.{IsParted, IsUnparted};

use crate::line::first_line;

/// An input parted at a line.
#[derive(Clone, Copy, Debug)]
pub struct Parted<'a> {
    /// What stands before that line.
    pub before: &'a [u8],
    /// The number of lines of which that line is the last.
    pub lines: u32,
    /// What stands behind that line.
    pub behind: &'a [u8],
}

/// An input without the line at which it was to be parted.
#[derive(Clone, Copy, PartialEq, Eq, Debug)]
pub struct Unparted {
    /// The number of its lines.
    pub lines: u32,
}

/// An input parted at the first line that is exactly a word.
pub fn parted_at<'a>(input: &'a [u8], word: &[u8]) -> Result<Parted<'a>, Unparted>
    requires { length input.now < 2 ^ 32 }
    ensures parted { IfOk result
        (λ p. IsParted word.now input.now p.before.now p.lines p.behind.now) }
    ensures unparted { IfErr result (λ u. IsUnparted word.now input.now u.lines) }
    ensures within { MatchResult result (λ p. (p.lines ≤ length input.now)
        × (length p.before.now ≤ length input.now) × (length p.behind.now ≤ length input.now))
        (λ u. u.lines ≤ length input.now) }

    // An input is parted at a line in one way, or it has no such line.
    ensures only { (before : List ℕ) (n : ℕ) (behind : List ℕ)
        → IsParted word.now input.now before n behind → MatchResult result
        (λ p. (p.before.now ≡ before) × (p.lines ≡ n) × (p.behind.now ≡ behind)) (λ _. ⊥) }
    ensures only_unparted { (n : ℕ) → IsUnparted word.now input.now n
        → MatchResult result (λ _. ⊥) (λ u. u.lines ≡ n) }
{
    let mut rest = input;
    let mut lines = 0;
    while !rest.is_empty() {
        let (line, behind) = first_line(rest);
        lines += 1;
        if line == word {
            return Ok(Parted {
                before: &input[..input.len() - rest.len()],
                lines,
                behind,
            });
        }
        rest = behind;
    }
    Err(Unparted { lines })
}
