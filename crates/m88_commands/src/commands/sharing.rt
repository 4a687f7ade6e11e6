//! `share`: a run of the programs of some sources on one board, and what is told of it.
ghost use Rattle.std.specs.Prelude.{◌≡◌, ◌++◌, ◌≤◌, ◌∷◌, IfOk, OnOk, codes, length};
ghost use Rattle.std.specs.List.{enumerate_from, flat_map};
ghost use Rattle.m88_mem.specs.Marks.{NamesPages, absent_in};
ghost use Rattle.m88_commands.specs.Command.{IsFit, Spells, command_of, share};
ghost use Rattle.m88_commands.specs.Inside.Reading.{ReadsFit};
ghost use Rattle.m88_commands.specs.Reply.{Replies};
ghost use Rattle.m88_commands.specs.Limits.{most_input, most_limit};
ghost use Rattle.m88_commands.specs.Answer.Sharing.{numbered_report, saved_line, switch_line, switch_lines, told_of_shared};
ghost use Rattle.m88_base.specs.Words.{texts};

use crate::commands::Command;
use crate::commands::numbered::push_numbered_event;
use crate::commands::sources::images_of_sources;
use crate::grammar::no_more;
use crate::limits::MOST_LIMIT;
use crate::pages::absent_of;
use m88_base::{Absent, NoMemory, Reply, accept, first_word, push_decimal, refuse};
use m88_event::Outcome;
use m88_report::{push_count, push_named, report};
use m88_session::decimal_number;
use m88_tasks::{ShareSchedule, Shared, Switch, Tasks};
use std::alloc::{AllocError, Global};

/// The shared run that the words after `share` ask for: its limit, its absent pages and its schedule (`-`, or 1 to
/// 65,536 letters `i`, `r`, `e` and `t`).
pub fn share_command<'a>(words: &'a [String]) -> Option<Command<'a>>
    ensures { ReadsFit (Spells (codes "share" ∷ texts words.now)) command_of IsFit result }
{
    let (limit, words) = first_word(words)?;
    let (absent, words) = first_word(words)?;
    let (schedule, rest) = first_word(words)?;
    no_more(rest)?;
    let limit = decimal_number(7, limit.as_bytes(), MOST_LIMIT)?;
    let absent = absent_of(absent)?;
    let schedule = ShareSchedule::read(schedule)?;
    Some(Command::Share {
        limit,
        absent,
        schedule,
    })
}

/// The reply of `share` to an input of sources.
pub fn share_board(
    alloc: Global,
    limit: u32,
    absent: &Absent,
    schedule: &ShareSchedule,
    input: &[u8],
) -> Result<Reply, NoMemory>
    requires size { length input.now ≤ most_input }
    requires limit { limit ≤ most_limit }
    requires pages { NamesPages absent.now }
    ensures { IfOk result (Replies (share limit (absent_in absent.now) schedule.now) input.now) }
{
    let images = match images_of_sources(alloc, input)? {
        Ok(images) => images,
        Err(refusal) => return refuse(alloc, &refusal),
    };
    let tasks = Tasks::new(alloc, images.as_slice(), absent, limit)?;
    let shared = tasks.run(schedule)?;
    let text = shared_text(alloc, &shared)?;
    Ok(accept(text))
}

/// What is told of a shared run.
#[tactic(auto, unfolding(crate::specs::Answer::Sharing::told_of_shared))]
fn shared_text(alloc: Global, shared: &Shared) -> Result<Vec<u8>, NoMemory>
    ensures { IfOk result (λ text. text.items ≡ told_of_shared shared.now) }
{
    let mut text = Vec::new(alloc);
    push_reports(&mut text, shared.outcomes.as_slice())?;
    push_count(&mut text, b"events", shared.events)?;
    let switches = shared.switches.as_slice();
    push_count(&mut text, b"switches", switches.len() as u64)?;
    push_switches(&mut text, switches)?;
    Ok(text)
}

/// Appends the reports of programs, numbered from 1.
#[tactic(auto, using(std::proofs::lemmas::Grind::common_steps, m88_report::proofs::Laws::one_more_numbered))]
fn push_reports(text: &mut Vec<u8>, outcomes: &[Outcome]) -> Result<(), NoMemory>
    ensures { OnOk result (text.new.items ≡ text.old.items
        ++ flat_map numbered_report (enumerate_from 1 outcomes.now)) }
{
    for (index, outcome) in outcomes.iter().enumerate() {
        push_numbered_report(text, index as u64 + 1, outcome)?;
    }
    Ok(())
}

/// Appends the number of a program, and its report.
#[tactic(auto, unfolding(crate::specs::Answer::Sharing::numbered_report))]
fn push_numbered_report(text: &mut Vec<u8>, number: u64, outcome: &Outcome) -> Result<(), NoMemory>
    ensures { OnOk result (text.new.items ≡ text.old.items
        ++ numbered_report (number, outcome.now)) }
{
    push_count(text, b"program", number)?;
    let report = report(*text.allocator(), outcome)?;
    text.extend_from_slice(report.as_slice())?;
    Ok(())
}

/// Appends the lines of switches, numbered from 1.
#[tactic(auto, using(std::proofs::lemmas::Grind::common_steps, m88_report::proofs::Laws::one_more_numbered))]
fn push_switches(text: &mut Vec<u8>, switches: &[Switch]) -> Result<(), AllocError>
    ensures { OnOk result (text.new.items ≡ text.old.items
        ++ flat_map switch_lines (enumerate_from 1 switches.now)) }
{
    for (index, switch) in switches.iter().enumerate() {
        push_switch(text, index as u64 + 1, *switch)?;
    }
    Ok(())
}

/// Appends both lines of a switch with its number.
#[tactic(auto, unfolding(crate::specs::Answer::Sharing::switch_lines))]
fn push_switch(text: &mut Vec<u8>, number: u64, switch: Switch) -> Result<(), AllocError>
    ensures { OnOk result (text.new.items ≡ text.old.items ++ switch_lines (number, switch)) }
{
    push_switch_line(text, number, switch)?;
    push_saved(text, switch)
}

/// Appends the line of a switch with its number: its event and both programs, which are numbered from 1 there.
#[tactic(auto, unfolding(crate::specs::Answer::Sharing::switch_line))]
fn push_switch_line(text: &mut Vec<u8>, number: u64, switch: Switch) -> Result<(), AllocError>
    ensures { OnOk result (text.new.items ≡ text.old.items ++ switch_line number switch) }
{
    push_numbered_event(text, b"switch", number, switch.event)?;
    text.extend_from_slice(b" from ")?;
    push_decimal(text, u64::from(switch.from) + 1)?;
    text.extend_from_slice(b" to ")?;
    push_decimal(text, u64::from(switch.to) + 1)?;
    text.extend_from_slice(b"\n")
}

/// Appends the line of the words that a switch saved.
#[tactic(auto, unfolding(crate::specs::Answer::Sharing::saved_line))]
fn push_saved(text: &mut Vec<u8>, switch: Switch) -> Result<(), AllocError>
    ensures { OnOk result (text.new.items ≡ text.old.items ++ saved_line switch) }
{
    push_named(text, b"epsr", switch.epsr)?;
    push_named(text, b" sxip", switch.sxip)?;
    push_named(text, b" snip", switch.snip)?;
    push_named(text, b" sfip", switch.sfip)?;
    text.extend_from_slice(b"\n")
}
