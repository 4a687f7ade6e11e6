//! A line of a script.
ghost use Rattle.std.specs.Prelude.{ℕ, ◌≡◌, ◌≢◌, ◌++◌, IfSome, List, None, Some};
ghost use Rattle.m88_session.specs.Script.{IsCount, AreMemoryOperands, WritesAddress, WritesCommand};
ghost use Rattle.m88_session.specs.Reading.{ReadsValue};
ghost use Rattle.m88_session.specs.Inside.ScriptWords.{IsBare};
ghost use Rattle.m88_session.specs.declared.script.MonitorCommand.{MonitorCommand as CommandValue};

use crate::numbers::{decimal_number, hexadecimal_number};
use crate::script::MonitorCommand;
use m88_base::split_at_byte;

/// The most events that a command may ask for.
const MOST_STEPS: u32 = 1_000_000;

/// The most words that a command may ask for.
const MOST_WORDS: u32 = 1024;

/// The command that a line writes: its words are parted by one blank, with nothing before or behind them.
pub fn command_in(line: &[u8]) -> Option<MonitorCommand>
    ensures { ReadsValue (λ c. WritesCommand c line.now) result }
{
    if let Some(digits) = rest_behind(b"step ", line) {
        return count_in(digits, MOST_STEPS).map(MonitorCommand::Step);
    }
    if let Some(digits) = rest_behind(b"trace ", line) {
        return count_in(digits, MOST_STEPS).map(MonitorCommand::Trace);
    }
    if let Some(place) = rest_behind(b"break ", line) {
        return place_in(place).map(MonitorCommand::Break);
    }
    if let Some(operands) = rest_behind(b"mem ", line) {
        return place_and_count(operands).map(|(address, count)| MonitorCommand::Memory {
            address,
            count,
        });
    }
    bare_command(line)
}

/// The command that a line of one word writes.
fn bare_command(line: &[u8]) -> Option<MonitorCommand>
    ensures found { IfSome result (λ c. WritesCommand c line.now) }
    ensures only { (c : CommandValue) → IsBare c → WritesCommand c line.now → result ≡ Some c }
{
    if line == b"go".as_slice() {
        return Some(MonitorCommand::Go);
    }
    if line == b"regs".as_slice() {
        return Some(MonitorCommand::Regs);
    }
    if line == b"pipe".as_slice() {
        return Some(MonitorCommand::Pipe);
    }
    if line == b"drain".as_slice() {
        return Some(MonitorCommand::Drain);
    }
    None
}

/// What stands behind a text that begins a line.
fn rest_behind<'a>(front: &[u8], line: &'a [u8]) -> Option<&'a [u8]>
    ensures found { IfSome result (λ rest. line.now ≡ front.now ++ rest.now) }
    ensures none { result ≡ None → (rest : List ℕ) → line.now ≢ front.now ++ rest }
{
    line.strip_prefix(front)
}

/// The number from 1 to `most` that a text writes in one to seven decimal digits.
fn count_in(text: &[u8], most: u32) -> Option<u32>
    ensures { ReadsValue (IsCount most text.now) result }
{
    let n = decimal_number(7, text, most)?;
    if n == 0 {
        return None;
    }
    Some(n)
}

/// The address that a text writes in one to eight hexadecimal digits.
fn place_in(text: &[u8]) -> Option<u32>
    ensures { ReadsValue (WritesAddress text.now) result }
{
    hexadecimal_number(8, text, u32::MAX)
}

/// The address and the number of words that a text writes, with a blank between them.
fn place_and_count(text: &[u8]) -> Option<(u32, u32)>
    ensures found { IfSome result (λ m. AreMemoryOperands text.now m.0 m.1) }
    ensures only { (address count : ℕ) → AreMemoryOperands text.now address count
        → result ≡ Some (address, count) }
{
    let (place, digits) = split_at_byte(b' ', text)?;
    let address = place_in(place)?;
    let count = count_in(digits, MOST_WORDS)?;
    Some((address, count))
}
