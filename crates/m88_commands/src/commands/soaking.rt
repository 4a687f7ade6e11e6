//! `soak`: a run of the workload of a number and a count, and its summary.
ghost use Rattle.std.specs.Prelude.{ℕ, ◌≤◌, ◌∷◌, List, codes};
ghost use Rattle.m88_commands.specs.Command.{IsFit, Spells, command_of, soak};
ghost use Rattle.m88_commands.specs.Limits.{most_statements};
ghost use Rattle.m88_commands.specs.Inside.Reading.{ReadsFit};
ghost use Rattle.m88_commands.specs.Inside.Reply.{AnswersShown};
ghost use Rattle.m88_base.specs.Words.{texts};

use crate::commands::Command;
use crate::commands::running::outcome_of;
use crate::commands::summary::summary;
use crate::commands::workload::Draws;
use crate::grammar::no_more;
use crate::limits::MOST_STATEMENTS;
use m88_asm::image_of_source;
use m88_base::{Absent, NoMemory, Reply, accept, first_word};
use m88_board::Watch;
use m88_event::Schedule;
use m88_session::{Settings, decimal_number};
use std::alloc::Global;

/// The workload that the words after `soak` ask for: its number (1 to 10 decimal digits, below 2^32) and the count of
/// its statements (1 to 7 decimal digits, 1 to 40,000).
pub fn workload_command<'a>(words: &[String]) -> Option<Command<'a>>
    ensures { ReadsFit (Spells (codes "soak" ∷ texts words.now)) command_of IsFit result }
{
    let (number, words) = first_word(words)?;
    let (count, words) = first_word(words)?;
    no_more(words)?;
    let number = decimal_number(10, number.as_bytes(), u32::MAX)?;
    let count = decimal_number(7, count.as_bytes(), MOST_STATEMENTS)?;
    if count == 0 {
        return None;
    }
    Some(Command::Soak { number, count })
}

/// The reply of `soak` to a number and a count, whatever its input.
pub fn run_workload<W: Watch>(
    alloc: Global,
    number: u32,
    count: u32,
    watch: &mut W,
) -> Result<Reply, NoMemory>
    requires { count ≤ most_statements }
    ensures { (input : List ℕ)
        → AnswersShown W.seen watch.old watch.new (soak number count) input result }
{
    let mut draws = Draws::new(number);
    let source = draws.source(alloc, count)?;
    let letters = draws.letters(alloc)?;
    let Some(schedule) = Schedule::read(letters.as_str()) else {
        unreachable!();
    };
    let Ok(image) = image_of_source(alloc, 0, source.as_slice())? else {
        unreachable!();
    };
    let settings = Settings {
        limit: count,
        absent: Absent::All,
        schedule,
        mxm: false,
    };
    let outcome = outcome_of(alloc, &settings, &image, watch)?;
    let text = summary(alloc, number, count, &outcome)?;
    Ok(accept(text))
}
