//! The lines of an input, one by one.
ghost use Rattle.std.specs.Prelude.{◌≡◌, ◌<◌, ◌≤◌, ◌∷◌, None, Some, MatchOption, length};
ghost use Rattle.m88_base.specs.Lines.{behind_line, line_numbered, lines_of};
ghost use Rattle.m88_base.specs.Inside.LineEnd.{without_cr};

use crate::cut::len_before;

/// A line without the CR that belongs to its line end.
#[tactic(auto, using(crate::proofs::Lines::last_cr))]
fn without_cr(line: &[u8]) -> &[u8]
    ensures value { result.now ≡ without_cr line.now }
    ensures within { length result.now ≤ length line.now }
{
    match line.split_last() {
        Some((b'\r', front)) => front,
        _ => line,
    }
}

/// The first line of what is left of an input, without its line end, and what is left behind that.
pub fn first_line(rest: &[u8]) -> (&[u8], &[u8])
    requires { 0 < length rest.now }
    ensures lines { lines_of rest.now ≡ result.0.now ∷ lines_of result.1.now }
    ensures behind { result.1.now ≡ behind_line rest.now }
    ensures within { length result.0.now ≤ length rest.now }
    ensures shorter { length result.1.now < length rest.now }
{
    let (line, after) = rest.split_at(len_before(b'\n', rest));
    match after {
        [] => (line, after),
        [_, after @ ..] => (without_cr(line), after),
    }
}

/// The line of an input that has a number, from 1, without its line end; None where the input has fewer lines.
pub fn line_numbered(input: &[u8], number: u64) -> Option<&[u8]>
    ensures { MatchOption result (line_numbered input.now number ≡ None)
        (λ line. line_numbered input.now number ≡ Some line.now) }
{
    let mut rest = input;
    let mut before = number.saturating_sub(1);
    while before > 0 {
        if rest.is_empty() {
            return None;
        }
        let (_, behind) = first_line(rest);
        rest = behind;
        before -= 1;
    }
    if rest.is_empty() {
        return None;
    }
    let (line, _) = first_line(rest);
    Some(line)
}
