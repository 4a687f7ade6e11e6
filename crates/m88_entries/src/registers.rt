//! The lines of registers.
ghost use Rattle.std.specs.Prelude.{◌≡◌, ◌≤◌, ◌<◌, ◌+◌, ◌^◌, [], All, IfErr, IfOk, IfSome, MatchResult, None, Ok, Some, length, replicate, slice_index};
ghost use Rattle.m88_base.specs.Lines.{lines_of};
ghost use Rattle.m88_serving.specs.Faults.{is_named, repeated_from};
ghost use Rattle.m88_entries.specs.Told.{given_by, register_number, register_told, registers_told};
ghost use Rattle.m88_entries.specs.Inside.Parts.{IsUnreadLine};

use m88_base::{decimal_in, first_line, split_at_byte};
use m88_serving::last_word;
use std::alloc::Global;

/// Why lines of registers aren't read.
#[derive(Clone, Copy)]
pub(crate) enum UnreadLine {
    /// The line of this number isn't of the form.
    Form(u64),
    /// There was no memory for them.
    Memory,
}

/// The registers that lines tell, of which the first has a number, each with its word, in order.
pub(crate) fn registers_told(
    alloc: Global,
    lines: &[u8],
    first: u64,
) -> Result<Vec<(u32, u32)>, UnreadLine>
    requires { first + length lines.now < 2 ^ 64 }
    ensures ok { IfOk result (λ words.
        registers_told first (lines_of lines.now) ≡ Ok words.items) }
    ensures form { IfErr result (IsUnreadLine (registers_told first (lines_of lines.now))) }
    ensures each { IfOk result (λ words.
        All (λ word. (0 < word.0) × (word.0 < 32)) words.items) }
{
    let mut words = Vec::new(alloc);
    let mut rest = lines;
    let mut number = first;
    while !rest.is_empty() {
        let (line, behind) = first_line(rest);
        let Some(word) = register_told(line) else {
            return Err(UnreadLine::Form(number));
        };
        let Ok(()) = words.push(word) else {
            return Err(UnreadLine::Memory);
        };
        rest = behind;
        number += 1;
    }
    Ok(words)
}

/// The register of a line, r1 to r31, with its word.
#[tactic(auto, unfolding(crate::specs::Told::register_told, m88_serving::specs::Lines::behind_front))]
fn register_told(line: &[u8]) -> Option<(u32, u32)>
    ensures value { result ≡ register_told line.now }
    ensures register { IfSome result (λ word. (0 < word.0) × (word.0 < 32)) }
{
    let rest = line.strip_prefix(b"r")?;
    let (digits, text) = split_at_byte(b' ', rest)?;
    let r = register_number(digits)?;
    let word = last_word(b"", text)?;
    Some((r, word))
}

/// The number of a register, 1 to 31, in decimal digits without a needless zero.
fn register_number(digits: &[u8]) -> Option<u32>
    ensures value { result ≡ register_number digits.now }
    ensures bound { IfSome result (λ r. (0 < r) × (r < 32)) }
{
    let r = decimal_in(digits, 31)?;
    if r == 0 { None } else { Some(r) }
}

/// The registers by these words, 0 where none is told; or the number of the first line that tells one again, where the
/// first line has a number.
pub(crate) fn given_by(words: &[(u32, u32)], first: u64) -> Result<[u32; 32], u64>
    requires each { All (λ word. (0 < word.0) × (word.0 < 32)) words.now }
    requires room { first + length words.now < 2 ^ 64 }
    ensures given { IfOk result (λ given. given ≡ given_by (replicate 32 0) words.now) }
    ensures zero { IfOk result (λ given. slice_index given 0 ≡ 0) }
    ensures once { IfOk result (λ _. repeated_from first [] words.now ≡ None) }
    ensures twice { IfErr result (λ line. repeated_from first [] words.now ≡ Some line) }
{
    let mut given = [0; 32];
    for index in 0..words.len() {
        let (r, word) = words[index];
        if is_named(&words[..index], r) {
            return Err(first + index as u64);
        }
        given[r as usize] = word;
    }
    Ok(given)
}

/// Whether a register is among those of some words.
fn is_named(words: &[(u32, u32)], r: u32) -> bool
    ensures { result ≡ is_named words.now r }
{
    words.iter().any(|word| word.0 == r)
}
