//! `trace`: the trace of a run of a source; and `check`: whether lines behind a source are the first of its trace.
ghost use Rattle.std.specs.Prelude.{◌≡◌, ◌+◌, ◌≤◌, ◌∷◌, IfOk, codes, length};
ghost use Rattle.m88_session.specs.Settings.{AreBounded, settings_in};
ghost use Rattle.m88_commands.specs.Command.{IsFit, Spells, check, command_of, trace};
ghost use Rattle.m88_commands.specs.Inside.Reading.{ReadsFit};
ghost use Rattle.m88_commands.specs.Reply.{Replies};
ghost use Rattle.m88_commands.specs.Limits.{most_input};
ghost use Rattle.m88_commands.specs.TracedSources.{differs_refusal, no_trace_refusal};
ghost use Rattle.m88_base.specs.Words.{texts};

use crate::commands::Command;
use crate::grammar::plain_settings;
use m88_asm::image_of_source;
use m88_base::{NoMemory, Refusal, Reply, accept, parted_at, refuse};
use m88_report::push_count;
use m88_session::Settings;
use m88_trace::{TraceFault, check_trace, trace_run};
use std::alloc::Global;

/// The run of which the words after `trace` ask for the trace.
pub fn trace_command<'a>(words: &'a [String]) -> Option<Command<'a>>
    ensures { ReadsFit (Spells (codes "trace" ∷ texts words.now)) command_of IsFit result }
{
    let settings = plain_settings(words)?;
    Some(Command::Trace {
        limit: settings.limit,
        absent: settings.absent,
        schedule: settings.schedule,
    })
}

/// The reply of `trace` to a source.
pub fn trace_source(alloc: Global, settings: &Settings, source: &[u8]) -> Result<Reply, NoMemory>
    requires size { length source.now ≤ most_input }
    requires fit { AreBounded settings.now.limit settings.now.absent }
    ensures { IfOk result (Replies (trace (settings_in settings.now)) source.now) }
{
    let image = match image_of_source(alloc, 0, source)? {
        Ok(image) => image,
        Err(refusal) => return refuse(alloc, &refusal),
    };
    let text = trace_run(
        alloc,
        &image,
        &settings.absent,
        settings.limit,
        &settings.schedule,
    )?;
    Ok(accept(text))
}

/// The reply of `check` to an input.
pub fn check_source(alloc: Global, input: &[u8]) -> Result<Reply, NoMemory>
    requires { length input.now ≤ most_input }
    ensures { IfOk result (Replies check input.now) }
{
    let parted = match parted_at(input, b"trace") {
        Ok(parted) => parted,
        Err(unparted) => return refuse(alloc, &no_trace(alloc, unparted.lines)?),
    };
    let image = match image_of_source(alloc, 0, parted.before)? {
        Ok(image) => image,
        Err(refusal) => return refuse(alloc, &refusal),
    };
    match check_trace(alloc, &image, parted.behind) {
        Ok(lines) => {
            let mut text = Vec::new(alloc);
            push_count(&mut text, b"ok", u64::from(lines))?;
            Ok(accept(text))
        }
        Err(TraceFault::Differs { line }) => refuse(alloc, &differs(alloc, parted.lines, line)?),
        Err(TraceFault::Memory) => Err(NoMemory),
    }
}

/// The refusal of an input of so many lines, none of which is the line `trace`.
fn no_trace(alloc: Global, lines: u32) -> Result<Refusal, NoMemory>
    ensures { IfOk result (λ r. r ≡ no_trace_refusal (lines + 1)) }
{
    let reason = String::from_str(alloc, "no trace")?;
    Ok(Refusal::new(u64::from(lines) + 1, 1, reason))
}

/// The refusal of a line, from 1, that isn't the trace's, behind so many lines of the input.
fn differs(alloc: Global, lines: u32, line: u32) -> Result<Refusal, NoMemory>
    ensures { IfOk result (λ r. r ≡ differs_refusal (lines + line)) }
{
    let reason = String::from_str(alloc, "differs")?;
    Ok(Refusal::new(u64::from(lines) + u64::from(line), 1, reason))
}
