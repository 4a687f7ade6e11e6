//! The lines of a fault, parted from those of registers.
ghost use Rattle.std.specs.Prelude.{◌≡◌, ◌+◌, ◌≤◌, ◌&&◌, ◌||◌, false, length};
ghost use Rattle.m88_base.specs.Lines.{lines_of};
ghost use Rattle.m88_entries.specs.Told.{begins_register, fault_part, is_third, register_part};

use m88_base::first_line;

/// Lines parted at the first of a register.
#[derive(Clone, Copy)]
pub(crate) struct Parts<'a> {
    /// What stands before it.
    pub front: &'a [u8],
    /// How many lines that has.
    pub lines: u64,
    /// It and what stands behind it.
    pub rest: &'a [u8],
}

/// Lines parted at the first that begins with `r`, once a line that begins with `t2 ` is passed.
pub(crate) fn parts_of(input: &[u8]) -> Parts<'_>
    ensures front { lines_of result.front.now ≡ fault_part false (lines_of input.now) }
    ensures rest { lines_of result.rest.now ≡ register_part false (lines_of input.now) }
    ensures lines { result.lines ≡ length (lines_of result.front.now) }
    ensures few { result.lines + length result.rest.now ≤ length input.now }
{
    let mut rest = input;
    let mut passed = false;
    let mut lines = 0;
    while !rest.is_empty() {
        let (line, behind) = first_line(rest);
        if is_register(passed, line) {
            return Parts {
                front: &input[..input.len() - rest.len()],
                lines,
                rest,
            };
        }
        passed = is_passed(passed, line);
        lines += 1;
        rest = behind;
    }
    Parts {
        front: input,
        lines,
        rest,
    }
}

/// Whether a line is one of a register, once that of the third transaction is passed.
fn is_register(passed: bool, line: &[u8]) -> bool
    ensures { result ≡ (passed && begins_register line.now) }
{
    passed && begins_register(line)
}

/// Whether the line of the third transaction is passed, behind a line.
fn is_passed(passed: bool, line: &[u8]) -> bool
    ensures { result ≡ (passed || is_third line.now) }
{
    passed || is_third(line)
}

/// Whether a line begins as that of a register does.
#[tactic(auto, unfolding(crate::specs::Told::begins_register))]
fn begins_register(line: &[u8]) -> bool
    ensures { result ≡ begins_register line.now }
{
    match line {
        [byte, ..] => *byte == b'r',
        [] => false,
    }
}

/// Whether a line begins as that of the third transaction does.
#[tactic(auto, unfolding(m88_serving::specs::Lines::behind_front))]
fn is_third(line: &[u8]) -> bool
    ensures { result ≡ is_third line.now }
{
    line.starts_with(b"t2 ")
}
