//! `emu`: a run of a source with a monitor that emulates, its report, and what was emulated.
ghost use Rattle.std.specs.Prelude.{◌≡◌, ◌++◌, ◌≤◌, ◌∷◌, IfOk, OnOk, codes, length};
ghost use Rattle.std.specs.List.{enumerate_from, flat_map};
ghost use Rattle.m88_session.specs.Settings.{AreBounded, settings_in};
ghost use Rattle.m88_commands.specs.Command.{IsFit, Spells, command_of, emu};
ghost use Rattle.m88_commands.specs.Answer.Emulation.{emulation_line, told_of_emulated};
ghost use Rattle.m88_commands.specs.Inside.Reading.{ReadsFit};
ghost use Rattle.m88_commands.specs.Reply.{Replies};
ghost use Rattle.m88_commands.specs.Limits.{most_input};
ghost use Rattle.m88_base.specs.Words.{texts};

use crate::commands::Command;
use crate::commands::numbered::push_numbered_event;
use crate::grammar::plain_settings;
use m88_asm::image_of_source;
use m88_base::{NoMemory, Reply, accept, push_decimal, push_hex8, refuse};
use m88_emul::{EmulOutcome, Emulation};
use m88_report::{push_count, report};
use m88_session::Settings;
use std::alloc::{AllocError, Global};

/// The run with emulation that the words after `emu` ask for.
pub fn emulation_command<'a>(words: &'a [String]) -> Option<Command<'a>>
    ensures { ReadsFit (Spells (codes "emu" ∷ texts words.now)) command_of IsFit result }
{
    let settings = plain_settings(words)?;
    Some(Command::Emu {
        limit: settings.limit,
        absent: settings.absent,
        schedule: settings.schedule,
    })
}

/// The reply of `emu` to a source.
pub fn emulate_source(alloc: Global, settings: &Settings, source: &[u8]) -> Result<Reply, NoMemory>
    requires size { length source.now ≤ most_input }
    requires fit { AreBounded settings.now.limit settings.now.absent }
    ensures { IfOk result (Replies (emu (settings_in settings.now)) source.now) }
{
    let image = match image_of_source(alloc, 0, source)? {
        Ok(image) => image,
        Err(refusal) => return refuse(alloc, &refusal),
    };
    let outcome = m88_emul::run(
        alloc,
        &image,
        &settings.absent,
        settings.limit,
        &settings.schedule,
    )?;
    let text = emulated_text(alloc, &outcome)?;
    Ok(accept(text))
}

/// What is told of a run with emulation.
#[tactic(auto, unfolding(crate::specs::Answer::Emulation::told_of_emulated))]
fn emulated_text(alloc: Global, outcome: &EmulOutcome) -> Result<Vec<u8>, NoMemory>
    ensures { IfOk result (λ text. text.items ≡ told_of_emulated outcome.now) }
{
    let mut text = report(alloc, &outcome.outcome)?;
    let emulated = outcome.emulated.as_slice();
    push_count(&mut text, b"emulated", emulated.len() as u64)?;
    push_emulations(&mut text, emulated)?;
    Ok(text)
}

/// Appends the lines of emulations, numbered from 1.
#[tactic(auto, using(std::proofs::lemmas::Grind::common_steps, m88_report::proofs::Laws::one_more_numbered))]
fn push_emulations(text: &mut Vec<u8>, emulated: &[Emulation]) -> Result<(), AllocError>
    ensures { OnOk result (text.new.items ≡ text.old.items
        ++ flat_map emulation_line (enumerate_from 1 emulated.now)) }
{
    for (index, emulation) in emulated.iter().enumerate() {
        push_emulation(text, index as u64 + 1, *emulation)?;
    }
    Ok(())
}

/// Appends the line of an emulation with its number.
#[tactic(auto, unfolding(crate::specs::Answer::Emulation::emulation_line))]
fn push_emulation(text: &mut Vec<u8>, number: u64, emulation: Emulation) -> Result<(), AllocError>
    ensures { OnOk result (text.new.items ≡ text.old.items
        ++ emulation_line (number, emulation)) }
{
    push_numbered_event(text, b"emulate", number, emulation.event)?;
    text.extend_from_slice(b" at ")?;
    push_hex8(text, emulation.at)?;
    text.extend_from_slice(b" vector ")?;
    push_decimal(text, u64::from(emulation.vector))?;
    text.extend_from_slice(b"\n")
}
