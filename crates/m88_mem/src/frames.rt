//! The pages that are ready, each a frame of its own behind a table of two levels.
#![tactic(auto, unfolding(
// a frame, a word and a table, where they are there
crate::specs::Inside::Frames::frame_in, crate::specs::Inside::Frames::word_in, crate::specs::Inside::Frames::has_table))]

ghost use Rattle.std.specs.Prelude.{◌≡◌, ℕ, None, Some, is_some, replicate, length, option_map, slice_get, unwrap_or, IfOk, IfSome};
ghost use Rattle.m88_base.specs.Pages.{IsPage};
ghost use Rattle.m88_isa.specs.Lanes.{merged};
ghost use Rattle.m88_mem.specs.DataBus.{page_words};
ghost use Rattle.m88_mem.specs.Inside.Frames.{AreBare, CanHold, CanPut, CanPutInFrame, CanPutInTable, GivesTable, HasPut, HoldsFrame, IsPut, PutsWord, frame_at, frame_in, has_table, table_entries, word_at, words_in};
ghost use Rattle.m88_mem.specs.declared.frames.FrameTable.{FrameTable as FrameTableValue};
ghost use Rattle.m88_mem.specs.declared.frames.PageFrame.{PageFrame as PageFrameValue};

use m88_base::NoMemory;
use m88_isa::merge;
use std::alloc::Global;
use std::marker::Model;

/// The entries of a table of either level.
pub(crate) const ENTRIES: usize = 1024;

/// The 4,096 bytes of a page that is ready, as 1,024 words.
#[derive(Drop, Debug)]
pub(crate) struct PageFrame {
    pub words: Vec<u32>,
}

/// The frames of 1,024 pages that follow one another, as far as they are ready.
#[derive(Drop, Debug)]
pub(crate) struct FrameTable {
    pub frames: Vec<Option<PageFrame>>,
}

/// The frames of all pages that are ready.
#[derive(Drop, Debug)]
pub(crate) struct PageFrames {
    tables: Vec<Option<FrameTable>>,
}

impl Model for PageFrames {
    ghost use Rattle.std.specs.Prelude.{List, Option};
    ghost use Rattle.m88_mem.specs.Inside.Frames.{AreFrames};
    ghost use Rattle.m88_mem.specs.declared.frames.FrameTable.{FrameTable};

    ghost Value = { List (Option FrameTable) };

    ghost view = { λ f. f.tables.items };

    ghost invariant = { λ f. AreFrames f.tables.items };
}

impl PageFrames {
    /// No page is ready.
    pub fn new(alloc: Global) -> Result<PageFrames, NoMemory>
        ensures { IfOk result AreBare }
    {
        let mut tables = vec![in alloc]?;
        for _ in 0..ENTRIES {
            tables.push(None).or(Err(NoMemory))?;
        }
        Ok(PageFrames { tables })
    }

    /// The frame of a page, where it is ready.
    fn frame(&self, page: u32) -> Option<&PageFrame>
        ensures frame { option_map (λ frame. frame.now) result ≡ frame_at self.now page }
        ensures long { IfSome result (λ frame. length frame.now.words.items ≡ page_words) }
    {
        let Some(Some(table)) = self.tables.get(page as usize / ENTRIES) else {
            return None;
        };
        let Some(Some(frame)) = table.frames.get(page as usize % ENTRIES) else {
            return None;
        };
        Some(frame)
    }

    /// Whether a page is ready.
    pub fn is_ready(&self, page: u32) -> bool
        ensures { result ≡ is_some (frame_at self.now page) }
    {
        self.frame(page).is_some()
    }

    /// Whether there is a table for a page.
    pub fn has_table(&self, page: u32) -> bool
        ensures { result ≡ has_table self.now page }
    {
        matches!(self.tables.get(page as usize / ENTRIES), Some(Some(_)))
    }

    /// A word of a page by its place, where the page is ready.
    pub fn word(&self, page: u32, place: usize) -> Option<u32>
        ensures { result ≡ word_at self.now page place }
    {
        self.frame(page)?.words.get(place).copied()
    }

    /// The words of a page, in order, where the page is ready.
    pub fn words(&self, page: u32) -> Option<&[u32]>
        ensures words { option_map (λ words. words.now) result ≡ words_in (frame_at self.now page) }
        ensures long { IfSome result (λ words. length words.now ≡ page_words) }
    {
        Some(&self.frame(page)?.words)
    }

    /// Gives the page's part of the upper level a table. The frames stay as they are.
    pub fn give_table(&mut self, alloc: Global, page: u32) -> Result<(), NoMemory>
        requires { IsPage page }
        ensures { GivesTable self.old self.new page result }
    {
        let high = page as usize / ENTRIES;
        if self.tables[high].is_some() {
            return Ok(());
        }
        let table = FrameTable::new(alloc)?;
        self.tables[high] = Some(table);
        Ok(())
    }

    /// Puts a page's frame in its place.
    pub fn set_frame(&mut self, page: u32, frame: PageFrame)
        requires { CanHold self.old page frame }
        ensures { HoldsFrame self.old self.new page frame }
    {
        let high = page as usize / ENTRIES;
        let Some(mut table) = self.tables[high].take() else {
            unreachable!();
        };
        table.frames[page as usize % ENTRIES] = Some(frame);
        self.tables[high] = Some(table);
    }

    /// Writes the low bytes of a value to the bytes that `en` touches of a word of a page that is ready, by its place.
    /// The word is there: it doesn't matter what would stand for one that isn't.
    pub fn put(&mut self, page: u32, place: usize, en: u8, value: u32)
        requires { CanPut self.old page place en }
        ensures { PutsWord self.old self.new page place en value }
    {
        let table = &mut self.tables[page as usize / ENTRIES];
        put_in_table(table, page as usize % ENTRIES, place, en, value);
    }
}

impl FrameTable {
    /// No page is ready.
    fn new(alloc: Global) -> Result<FrameTable, NoMemory>
        ensures { IfOk result (λ t. t.frames.items ≡ replicate table_entries None) }
    {
        let mut frames = vec![in alloc]?;
        for _ in 0..ENTRIES {
            frames.push(None).or(Err(NoMemory))?;
        }
        Ok(FrameTable { frames })
    }
}

/// Writes to a word of a frame of a table where it stands.
fn put_in_table(table: &mut Option<FrameTable>, low: usize, place: usize, en: u8, value: u32)
    requires { CanPutInTable table.old low place en }
    ensures { (other : ℕ) (t : FrameTableValue) (f : PageFrameValue) → table.old ≡ Some t
        → frame_in table.old low ≡ Some f → HasPut table.new t f low place
        (merged en value (unwrap_or (slice_get f.words.items place) other)) }
{
    match table {
        Some(table) => put_in_frame(&mut table.frames[low], place, en, value),
        None => unreachable!(),
    }
}

/// Writes to a word of a frame.
fn put_in_frame(frame: &mut Option<PageFrame>, place: usize, en: u8, value: u32)
    requires { CanPutInFrame frame.old place en }
    ensures { (other : ℕ) (f : PageFrameValue) → frame.old ≡ Some f → IsPut frame.new f place
        (merged en value (unwrap_or (slice_get f.words.items place) other)) }
{
    match frame {
        Some(frame) => {
            let word = frame.words[place];
            frame.words[place] = merge(en, value, word);
        }
        None => unreachable!(),
    }
}
