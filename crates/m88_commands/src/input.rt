//! The input that a command reads, as it wants it.
ghost use Rattle.std.specs.Prelude.{ℕ, ◌≡◌, ◌≤◌, IfErr, IfOk, List, false, true, length};
ghost use Rattle.m88_srec.specs.Refused.{AreRecordsOf};
ghost use Rattle.m88_commands.specs.Command.{InputKind, command_of, kind_of, reads_input};
ghost use Rattle.m88_commands.specs.Inputs.{kept_text};
ghost use Rattle.m88_commands.specs.Inside.Inputs.{IsKeptAs, IsMadeOf, IsReadFrom, IsRecordsRead, IsTextRead};
ghost use Rattle.m88_base.specs.Reading.{ReadsSource};
ghost use Rattle.m88_commands.specs.Limits.{most_input};

use crate::commands::Command;
use crate::limits::MOST_INPUT;
use m88_base::{Image, ReadEnd, Refusal, Source, read_all};
use m88_srec::read_records;
use std::alloc::Global;

/// The whole input of a command.
#[derive(Drop, Debug)]
pub enum Input {
    /// None: the command reads nothing.
    Nothing,
    /// Its text.
    Text(Vec<u8>),
    /// The image that it writes as S-records, or its refusal as such.
    Records(Result<Image, Refusal>),
}

impl Input {
    /// The text of an input that was read as one.
    pub fn text(&self) -> &[u8]
        requires { IsTextRead self.now }
        ensures made { (input : List ℕ) → IsMadeOf self.now input → result.now ≡ input }
        ensures short { length result.now ≤ most_input }
    {
        match self {
            Input::Text(text) => text.as_slice(),
            Input::Nothing | Input::Records(_) => unreachable!(),
        }
    }

    /// What an input that was read as S-records came to.
    pub fn records(&self) -> &Result<Image, Refusal>
        requires { IsRecordsRead self.now }
        ensures { (input : List ℕ) → IsMadeOf self.now input → AreRecordsOf result.now input }
    {
        match self {
            Input::Records(records) => records,
            Input::Nothing | Input::Text(_) => unreachable!(),
        }
    }

    /// What is kept of an input as a text: nothing of S-records.
    pub fn kept(&self) -> &[u8]
        ensures { (kind : InputKind) (input : List ℕ) → IsKeptAs kind self.now → IsMadeOf self.now input
            → result.now ≡ kept_text kind input }
    {
        match self {
            Input::Text(text) => text.as_slice(),
            Input::Nothing | Input::Records(_) => &[],
        }
    }
}

/// The whole input of a command; one that reads none leaves the source alone.
#[tactic(auto, using(m88_base::proofs::Laws::calls_none))]
pub fn input_of<S: Source>(
    alloc: Global,
    command: &Command,
    source: &mut S,
) -> Result<Input, ReadEnd>
    ensures ok { IfOk result
        (IsReadFrom (command_of command.now) (S.left source.old) (S.left source.new)) }
    ensures kept { IfOk result (IsKeptAs (kind_of (command_of command.now))) }
    ensures unread { reads_input (command_of command.now) ≡ false → source.new ≡ source.old }
    ensures reader { IfErr result (λ _. reads_input (command_of command.now) ≡ true) }
    ensures reading { ReadsSource ReadEnd.SourceFault ReadEnd.TooLong S.left S.calls S.faults
        source.old source.new result }
{
    match command {
        Command::Soak { .. } => Ok(Input::Nothing),
        Command::Exec { .. } | Command::Dis => {
            let records = read_records(alloc, source)?;
            Ok(Input::Records(records))
        }
        _ => {
            let text = read_all(alloc, source, MOST_INPUT)?;
            Ok(Input::Text(text))
        }
    }
}
