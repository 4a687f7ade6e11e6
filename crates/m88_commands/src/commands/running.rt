//! `run` and `exec`: a run on the board, and its report.
ghost use Rattle.std.specs.Prelude.{ℕ, ◌≡◌, ◌≤◌, ◌∷◌, List, codes, length};
ghost use Rattle.m88_event.specs.declared.outcome.Outcome.{Outcome as OutcomeValue};
ghost use Rattle.m88_srec.specs.Refused.{AreRecordsOf};
ghost use Rattle.m88_session.specs.Settings.{AreBounded, settings_in};
ghost use Rattle.m88_commands.specs.Command.{IsFit, Spells, command_of, exec, run};
ghost use Rattle.m88_commands.specs.Inside.Reading.{ReadsFit};
ghost use Rattle.m88_commands.specs.Inside.Reply.{AnswersShown};
ghost use Rattle.m88_commands.specs.Inside.Running.{Reports, RunsImage};
ghost use Rattle.m88_commands.specs.Limits.{most_input};
ghost use Rattle.m88_base.specs.Words.{texts};

use crate::commands::Command;
use crate::grammar::settings;
use m88_asm::image_of_source;
use m88_base::{Image, NoMemory, Refusal, Reply, accept, refuse};
use m88_board::{Board, Watch};
use m88_event::Outcome;
use m88_report::report;
use m88_session::Settings;
use std::alloc::Global;

/// The run of a source that the words after `run` ask for.
pub fn run_command<'a>(words: &'a [String]) -> Option<Command<'a>>
    ensures { ReadsFit (Spells (codes "run" ∷ texts words.now)) command_of IsFit result }
{
    let settings = settings(words)?;
    Some(Command::Run {
        limit: settings.limit,
        absent: settings.absent,
        schedule: settings.schedule,
        mxm: settings.mxm,
    })
}

/// The run of S-records that the words after `exec` ask for.
pub fn exec_command<'a>(words: &'a [String]) -> Option<Command<'a>>
    ensures { ReadsFit (Spells (codes "exec" ∷ texts words.now)) command_of IsFit result }
{
    let settings = settings(words)?;
    Some(Command::Exec {
        limit: settings.limit,
        absent: settings.absent,
        schedule: settings.schedule,
        mxm: settings.mxm,
    })
}

/// The reply of `run` to a source.
pub fn run_source<W: Watch>(
    alloc: Global,
    settings: &Settings,
    source: &[u8],
    watch: &mut W,
) -> Result<Reply, NoMemory>
    requires size { length source.now ≤ most_input }
    requires fit { AreBounded settings.now.limit settings.now.absent }
    ensures { AnswersShown W.seen watch.old watch.new (run (settings_in settings.now)) source.now
        result }
{
    match image_of_source(alloc, 0, source)? {
        Ok(image) => run_image(alloc, settings, &image, watch),
        Err(refusal) => refuse(alloc, &refusal),
    }
}

/// The reply of `exec` to S-records, from the image that they write or their refusal.
pub fn run_records<W: Watch>(
    alloc: Global,
    settings: &Settings,
    records: &Result<Image, Refusal>,
    watch: &mut W,
) -> Result<Reply, NoMemory>
    requires { AreBounded settings.now.limit settings.now.absent }
    ensures { (text : List ℕ) → AreRecordsOf records.now text
        → AnswersShown W.seen watch.old watch.new (exec (settings_in settings.now)) text result }
{
    match records {
        Ok(image) => run_image(alloc, settings, image, watch),
        Err(refusal) => refuse(alloc, refusal),
    }
}

/// The reply that accepts an input whose program an image holds: the report of a run of it, on a board that is shown to
/// the watch after each event.
fn run_image<W: Watch>(
    alloc: Global,
    settings: &Settings,
    image: &Image,
    watch: &mut W,
) -> Result<Reply, NoMemory>
    requires { AreBounded settings.now.limit settings.now.absent }
    ensures { RunsImage image.now (settings_in settings.now) (W.seen watch.old) (W.seen watch.new)
        Reports result }
{
    let outcome = outcome_of(alloc, settings, image, watch)?;
    let text = report(alloc, &outcome)?;
    Ok(accept(text))
}

/// What a run of the program that an image holds comes to, on a board that is shown to the watch after each event.
pub fn outcome_of<W: Watch>(
    alloc: Global,
    settings: &Settings,
    image: &Image,
    watch: &mut W,
) -> Result<Outcome, NoMemory>
    requires { AreBounded settings.now.limit settings.now.absent }
    ensures { RunsImage image.now (settings_in settings.now) (W.seen watch.old) (W.seen watch.new)
        (λ (own outcome : OutcomeValue). own ≡ outcome) result }
{
    let board = Board::new(alloc, image, &settings.absent, settings.limit, settings.mxm)?;
    let outcome = board.run(&settings.schedule, watch)?;
    Ok(outcome)
}
