//! The commands of the program: how each is called, what words ask for it, and what it makes of its whole input.
ghost use Rattle.std.specs.Prelude.{ℕ, [], ◌≡◌, IfSome, List, MatchOption, Some, false};
ghost use Rattle.m88_commands.specs.Command.{Command as Choice, IsFit, Spells, command_of, kind_of, shows_boards};
ghost use Rattle.m88_commands.specs.Inside.Inputs.{IsKeptAs, IsMadeOf};
ghost use Rattle.m88_commands.specs.Inside.Reply.{AnswersShown};
ghost use Rattle.m88_base.specs.Words.{texts};

use crate::forms::{Form, Reads};
use crate::grammar::no_more;
use crate::input::Input;
use crate::limits::SESSION_LIMIT;
use assembly::{assemble_source, build_source};
use emulation::{emulate_source, emulation_command};
use loading::list_records;
use m88_base::{Absent, NoMemory, Reply, first_word};
use m88_board::Watch;
use m88_event::Schedule;
use m88_session::Settings;
use m88_tasks::ShareSchedule;
use monitoring::{run_monitor, session_command};
use objects::link_objects;
use paging::{page_source, paged_command};
use running::{exec_command, run_command, run_records, run_source};
use sharing::{share_board, share_command};
use soaking::{run_workload, workload_command};
use std::alloc::Global;
use traces::{check_source, trace_command, trace_source};

// What commands make of their inputs.
mod assembly;
mod emulation;
mod loading;
mod monitoring;
mod numbered;
mod objects;
mod paging;
mod running;
mod sharing;
mod soaking;
mod sources;
mod summary;
mod traces;
mod workload;

/// What the words of the program ask for. A run retires at most `limit` instructions, its pages `absent` are absent at
/// first, its events begin with the letters of `schedule`, and MXM is set at its start by `mxm`, or clear.
#[derive(Drop, Debug)]
pub enum Command<'a> {
    /// The report of a run of a source.
    Run {
        limit: u32,
        absent: Absent,
        schedule: Schedule<'a>,
        mxm: bool,
    },
    /// The same of the image that S-records write.
    Exec {
        limit: u32,
        absent: Absent,
        schedule: Schedule<'a>,
        mxm: bool,
    },
    /// The text of the objects of a source.
    Asm,
    /// The S-records of the image that objects, read as text, are linked into.
    Link,
    /// The S-records of the image of a source.
    Build,
    /// The listing of the image that S-records write.
    Dis,
    /// What the monitor writes for a script over a source.
    Mon {
        absent: Absent,
        schedule: Schedule<'a>,
        mxm: bool,
    },
    /// The summary of the run of the workload that a number makes, with `count` statements.
    Soak {
        number: u32,
        count: u32,
    },
    /// The reports of the programs of one to eight sources on one board; limit and absent pages are those of each.
    Share {
        limit: u32,
        absent: Absent,
        schedule: ShareSchedule<'a>,
    },
    /// The report of a run of a source whose monitor does what the chip leaves to software, and what it did.
    Emu {
        limit: u32,
        absent: Absent,
        schedule: Schedule<'a>,
    },
    /// The report of a run of a source whose memory stands in 1 to 64 frames too, and how often pages came in and out.
    Page {
        frames: u32,
        limit: u32,
        absent: Absent,
        schedule: Schedule<'a>,
    },
    /// The trace of a run of a source.
    Trace {
        limit: u32,
        absent: Absent,
        schedule: Schedule<'a>,
    },
    /// How many lines of its trace stand behind a source, where nothing else does.
    Check,
}

/// How every command is called, in the order in which they are told.
pub const FORMS: [Form; 13] = [
    Form("run", "LIMIT ABSENT SCHEDULE [mxm]", Reads::Source),
    Form("exec", "LIMIT ABSENT SCHEDULE [mxm]", Reads::Records),
    Form("dis", "", Reads::Records),
    Form("asm", "", Reads::Source),
    Form("link", "", Reads::Objects),
    Form("build", "", Reads::Source),
    Form("mon", "ABSENT SCHEDULE [mxm]", Reads::Script),
    Form("share", "LIMIT ABSENT SCHEDULE", Reads::Sources),
    Form("emu", "LIMIT ABSENT SCHEDULE", Reads::Source),
    Form("page", "FRAMES LIMIT ABSENT SCHEDULE", Reads::Source),
    Form("trace", "LIMIT ABSENT SCHEDULE", Reads::Source),
    Form("check", "", Reads::Trace),
    Form("soak", "NUMBER COUNT", Reads::Nothing),
];

/// The command that the words spell. None for words that spell none.
pub fn spelled<'a>(words: &'a [String]) -> Option<Command<'a>>
    ensures found { IfSome result (λ c. Spells (texts words.now) (command_of c)) }
    ensures only { (choice : Choice) → Spells (texts words.now) choice
        → MatchOption result ⊥ (λ c. command_of c ≡ choice) }
    ensures fit { IfSome result IsFit }
{
    let (name, rest) = first_word(words)?;
    match name {
        "run" => run_command(rest),
        "exec" => exec_command(rest),
        "asm" => bare(Command::Asm, rest),
        "link" => bare(Command::Link, rest),
        "build" => bare(Command::Build, rest),
        "dis" => bare(Command::Dis, rest),
        "mon" => session_command(rest),
        "soak" => workload_command(rest),
        "share" => share_command(rest),
        "emu" => emulation_command(rest),
        "page" => paged_command(rest),
        "trace" => trace_command(rest),
        "check" => bare(Command::Check, rest),
        _ => None,
    }
}

/// A command that its name spells alone.
fn bare<'a>(command: Command<'a>, rest: &[String]) -> Option<Command<'a>>
    ensures found { IfSome result (λ c. (c ≡ command.entry) × (texts rest.now ≡ [])) }
    ensures only { texts rest.now ≡ [] → result ≡ Some command.entry }
{
    no_more(rest)?;
    Some(command)
}

/// The reply of a command to its whole input. Where the command shows boards, its board is shown to the watch after
/// each event.
#[tactic(auto, using(crate::proofs::Refusing::shows_none))]
pub fn reply_to<W: Watch>(
    alloc: Global,
    command: Command,
    input: &Input,
    watch: &mut W,
) -> Result<Reply, NoMemory>
    requires fit { IsFit command }
    requires kept { IsKeptAs (kind_of (command_of command)) input.now }
    ensures answers { (bytes : List ℕ) → IsMadeOf input.now bytes
        → AnswersShown W.seen watch.old watch.new (command_of command.entry) bytes result }
    ensures unshown { shows_boards (command_of command.entry) ≡ false → watch.new ≡ watch.old }
{
    match command {
        Command::Run {
            limit,
            absent,
            schedule,
            mxm,
        } => {
            let settings = Settings::new(limit, absent, schedule, mxm);
            run_source(alloc, &settings, input.text(), watch)
        }
        Command::Exec {
            limit,
            absent,
            schedule,
            mxm,
        } => {
            let settings = Settings::new(limit, absent, schedule, mxm);
            run_records(alloc, &settings, input.records(), watch)
        }
        Command::Asm => assemble_source(alloc, input.text()),
        Command::Link => link_objects(alloc, input.text()),
        Command::Build => build_source(alloc, input.text()),
        Command::Dis => list_records(alloc, input.records()),
        Command::Mon {
            absent,
            schedule,
            mxm,
        } => {
            let settings = Settings::new(SESSION_LIMIT, absent, schedule, mxm);
            run_monitor(alloc, &settings, input.text(), watch)
        }
        Command::Soak { number, count } => run_workload(alloc, number, count, watch),
        Command::Share {
            limit,
            absent,
            schedule,
        } => share_board(alloc, limit, &absent, &schedule, input.text()),
        Command::Emu {
            limit,
            absent,
            schedule,
        } => {
            let settings = Settings::new(limit, absent, schedule, false);
            emulate_source(alloc, &settings, input.text())
        }
        Command::Page {
            frames,
            limit,
            absent,
            schedule,
        } => {
            let settings = Settings::new(limit, absent, schedule, false);
            page_source(alloc, frames, &settings, input.text())
        }
        Command::Trace {
            limit,
            absent,
            schedule,
        } => {
            let settings = Settings::new(limit, absent, schedule, false);
            trace_source(alloc, &settings, input.text())
        }
        Command::Check => check_source(alloc, input.text()),
    }
}
