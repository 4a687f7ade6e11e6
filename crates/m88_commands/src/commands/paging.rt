//! `page`: a run of a source whose memory stands in frames before a store of pages, its report, and how often pages
//! came in and went out.
ghost use Rattle.std.specs.Prelude.{◌≡◌, ◌≤◌, ◌∷◌, IfOk, codes, length};
ghost use Rattle.m88_pager.specs.Paged.{most_frames};
ghost use Rattle.m88_session.specs.Settings.{AreBounded, settings_in};
ghost use Rattle.m88_commands.specs.Command.{IsFit, Spells, command_of, page};
ghost use Rattle.m88_commands.specs.Inside.Reading.{ReadsFit};
ghost use Rattle.m88_commands.specs.Reply.{Replies};
ghost use Rattle.m88_commands.specs.Limits.{most_input};
ghost use Rattle.m88_commands.specs.Answer.Paging.{told_of_paged};
ghost use Rattle.m88_base.specs.Words.{texts};

use crate::commands::Command;
use crate::grammar::plain_settings;
use crate::limits::MOST_FRAMES;
use m88_asm::image_of_source;
use m88_base::{NoMemory, Reply, accept, first_word, refuse};
use m88_pager::{MemStore, Paged, page_run};
use m88_report::{push_count, report};
use m88_session::{Settings, decimal_number};
use std::alloc::Global;

/// The paged run that the words after `page` ask for: the number of its frames (1 or 2 decimal digits, 1 to 64), and
/// the settings of a run without a mode.
pub fn paged_command<'a>(words: &'a [String]) -> Option<Command<'a>>
    ensures { ReadsFit (Spells (codes "page" ∷ texts words.now)) command_of IsFit result }
{
    let (frames, words) = first_word(words)?;
    let settings = plain_settings(words)?;
    let frames = decimal_number(2, frames.as_bytes(), MOST_FRAMES)?;
    if frames == 0 {
        return None;
    }
    Some(Command::Page {
        frames,
        limit: settings.limit,
        absent: settings.absent,
        schedule: settings.schedule,
    })
}

/// The reply of `page` to a source.
pub fn page_source(
    alloc: Global,
    frames: u32,
    settings: &Settings,
    source: &[u8],
) -> Result<Reply, NoMemory>
    requires size { length source.now ≤ most_input }
    requires some { 1 ≤ frames }
    requires most { frames ≤ most_frames }
    requires fit { AreBounded settings.now.limit settings.now.absent }
    ensures { IfOk result (Replies (page frames (settings_in settings.now)) source.now) }
{
    let image = match image_of_source(alloc, 0, source)? {
        Ok(image) => image,
        Err(refusal) => return refuse(alloc, &refusal),
    };
    // No call of this store fails, so that a run before it ends without an outcome only for want of memory.
    let mut store = MemStore::new(alloc, &[])?;
    let Ok(paged) = page_run(
        alloc,
        &image,
        &settings.absent,
        settings.limit,
        &settings.schedule,
        frames,
        &mut store,
    ) else {
        return Err(NoMemory);
    };
    let text = paged_text(alloc, frames, &paged)?;
    Ok(accept(text))
}

/// What is told of a paged run.
#[tactic(auto, unfolding(crate::specs::Answer::Paging::told_of_paged))]
fn paged_text(alloc: Global, frames: u32, paged: &Paged) -> Result<Vec<u8>, NoMemory>
    ensures { IfOk result (λ text. text.items ≡ told_of_paged frames paged.now) }
{
    let mut text = report(alloc, &paged.outcome)?;
    push_count(&mut text, b"frames", u64::from(frames))?;
    push_count(&mut text, b"ins", u64::from(paged.ins))?;
    push_count(&mut text, b"outs", u64::from(paged.outs))?;
    Ok(text)
}
