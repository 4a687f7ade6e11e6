//! Memory, as the instruction bus and the data bus see it.
#![tactic(auto, unfolding(
// the words of the data bus, and the pages that are ready and absent
crate::specs::DataBus::bus_of, crate::specs::DataBus::ready_of, crate::specs::DataBus::absent_of,
// a word that changes
m88_isa::specs::Bus::with_word))]

ghost use Rattle.std.specs.Prelude.{◌≡◌, ◌++◌, ◌∷◌, [], ◌+◌, ◌*◌, ◌/◌, ◌%◌, ◌<◌, ◌↔◌, true, false, Some, length, slice_get, option_map, IfOk, IfSome, IsErr, IsTrue, OnErr, OnOk};
ghost use Rattle.std.specs.Int.{to_be_bytes, w32};
ghost use Rattle.m88_base.specs.Found.{IsFree};
ghost use Rattle.m88_base.specs.Image.{byte_at};
ghost use Rattle.m88_base.specs.Pages.{IsPage, every_page, no_page, page_number};
ghost use Rattle.m88_isa.specs.Bus.{changed_words, with_word};
ghost use Rattle.m88_isa.specs.Lanes.{IsEnable, merged};
ghost use Rattle.m88_isa.specs.Machine.{four_bytes};
ghost use Rattle.m88_isa.specs.Word.{IsWord};
ghost use Rattle.m88_mem.specs.DataBus.{absent_of, bus_of, image_bus, page_words, ready_of};
ghost use Rattle.m88_mem.specs.Inside.Changes.{GoesOver, HasComeTo, MakesReady, changed_before};
ghost use Rattle.m88_mem.specs.Inside.Frames.{IsImageFrame, table_entries};
ghost use Rattle.m88_mem.specs.Lines.{IsLine};
ghost use Rattle.m88_mem.specs.Marks.{NamesPages, absent_in, with_page};

use crate::absent_page::AbsentPage;
use crate::frames::{ENTRIES, PageFrame, PageFrames};
use crate::lines::{KeptLines, Line, line_of};
use crate::marks::PageMarks;
use crate::places::{fetched, image_page, image_word, page_word};
use crate::reads::{KeptReads, Read};
use m88_base::{Absent, Image, NoMemory, PAGE_BYTES, PAGE_WORDS};
use m88_isa::Instr;
use std::alloc::Global;
use std::marker::Model;

/// The image as it was linked, the data bus over it in a frame for each page that is ready, and a bit for each page,
/// set where it is absent.
#[derive(Drop, Debug)]
pub struct Memory {
    alloc: Global,
    image: Image,
    frames: PageFrames,
    absent: PageMarks,
    /// Instructions that were read: nothing is seen of them.
    lines: KeptLines,
    /// Words of the image that were read: nothing is seen of them either.
    reads: KeptReads,
}

impl Model for Memory {
    ghost use Rattle.m88_mem.specs.DataBus.{MemoryView};
    ghost use Rattle.m88_mem.specs.Inside.Frames.{IsMemory, seen_as};

    ghost Value = { MemoryView };

    ghost view = { λ m. seen_as m.image m.frames m.absent };

    ghost invariant = { λ m. IsMemory m.image m.frames m.lines m.reads };
}

impl Memory {
    /// Memory over a copy of an image. No page is ready, and those that are named are absent, each at most
    /// 0xFFFFF.
    pub fn new(alloc: Global, image: &Image, absent: &Absent) -> Result<Memory, NoMemory>
        requires { NamesPages absent.now }
        ensures image { IfOk result (λ m. m.image ≡ image.now) }
        ensures bus { IfOk result (λ m. bus_of m ≡ image_bus image.now) }
        ensures ready { IfOk result (λ m. ready_of m ≡ no_page) }
        ensures absent { IfOk result (λ m. absent_of m ≡ absent_in absent.now) }
    {
        let image = image.copy(alloc)?;
        let frames = PageFrames::new(alloc)?;
        let absent = PageMarks::new(alloc, absent)?;
        let lines = KeptLines::new(alloc)?;
        let reads = KeptReads::new(alloc)?;
        Ok(Memory {
            alloc,
            image,
            frames,
            absent,
            lines,
            reads,
        })
    }

    /// The image as it was linked.
    pub fn image(&self) -> &Image
        ensures { result.now ≡ self.now.image }
    {
        &self.image
    }

    /// The word of the instruction bus at the byte address of a word, or None where one of the four bytes isn't
    /// in the image.
    pub fn fetch(&self, addr: u32) -> Option<u32>
        requires { addr % 4 ≡ 0 }
        ensures { option_map (λ word. to_be_bytes w32 word) result
            ≡ four_bytes (byte_at self.now.image) addr }
    {
        match self.line(addr) {
            Some(line) => Some(line.word),
            None => fetched(&self.image, addr),
        }
    }

    /// The instruction that is kept of a byte address, if one is.
    pub fn line(&self, addr: u32) -> Option<Line>
        ensures { IfSome result (λ line. (line.addr ≡ addr) × IsLine self.now.image line) }
    {
        self.lines.line(addr)
    }

    /// Keeps the instruction of the word at a byte address. Nothing of it is seen but by `line`.
    pub fn keep(&mut self, addr: u32, word: u32, instr: Instr) -> Line
        requires aligned { addr % 4 ≡ 0 }
        requires word { four_bytes (byte_at self.old.image) addr ≡ Some (to_be_bytes w32 word) }
        requires instruction { IsWord instr word }
        ensures line { (result.addr ≡ addr) × IsLine self.old.image result }
        ensures stays { self.new ≡ self.old }
    {
        let line = line_of(&self.image, addr, word, instr);
        self.lines.keep(line);
        line
    }

    /// Whether a page, by its number, is absent.
    pub fn is_absent(&self, page: u32) -> bool
        requires { IsPage page }
        ensures { result ≡ absent_of self.now page }
    {
        self.absent.is_marked(page)
    }

    /// Whether the page of a byte address is ready: no store to it needs memory.
    pub fn is_ready(&self, addr: u32) -> bool
        ensures { result ≡ ready_of self.now (page_number addr) }
    {
        self.frames.is_ready(addr / PAGE_BYTES)
    }

    /// The word of the data bus at the byte address of a word, whether its page is absent or not.
    pub fn word(&self, addr: u32) -> u32
        requires { addr % 4 ≡ 0 }
        ensures { result ≡ bus_of self.now addr }
    {
        match self.frames.word(addr / PAGE_BYTES, place_of(addr)) {
            Some(word) => word,
            None => image_word(&self.image, addr),
        }
    }

    /// The word of the data bus at the byte address of a word, as `word` answers it. What the image has there is kept,
    /// and found at once the next time: nothing of that is seen.
    pub fn load(&mut self, addr: u32) -> u32
        requires { addr % 4 ≡ 0 }
        ensures value { result ≡ bus_of self.old addr }
        ensures stays { self.new ≡ self.old }
    {
        match self.frames.word(addr / PAGE_BYTES, place_of(addr)) {
            Some(word) => word,
            None => self.read_image(addr),
        }
    }

    /// The word that the image has at the byte address of a word, which is kept.
    fn read_image(&mut self, addr: u32) -> u32
        requires { addr % 4 ≡ 0 }
        ensures value { result ≡ image_bus self.old.image addr }
        ensures stays { self.new ≡ self.old }
    {
        if let Some(word) = self.reads.word(addr) {
            return word;
        }
        let word = image_word(&self.image, addr);
        self.reads.keep(Read { addr, word });
        word
    }

    /// Makes the page of a byte address ready. The data bus stays as it is, and where memory is refused nothing
    /// changes.
    // Not inlined: loads and stores are dearer where an issue has this inside.
    #[inline(never)]
    pub fn prepare(&mut self, addr: u32) -> Result<(), NoMemory>
        ensures image { self.new.image ≡ self.old.image }
        ensures bus { bus_of self.new ≡ bus_of self.old }
        ensures absent { absent_of self.new ≡ absent_of self.old }
        ensures ready { OnOk result
            (ready_of self.new ≡ with_page (page_number addr) true (ready_of self.old)) }
        ensures err { OnErr result (ready_of self.new ≡ ready_of self.old) }
        ensures unchanged { OnErr result (self.new ≡ self.old) }
    {
        if self.is_ready(addr) {
            return Ok(());
        }
        self.make_ready(addr)
    }

    /// Makes ready a page that isn't yet, apart from the question that is asked ahead of each store.
    // Not inlined, so that what is rare stays out of the way: of all stores to a page only the first comes here.
    #[inline(never)]
    fn make_ready(&mut self, addr: u32) -> Result<(), NoMemory>
        requires { ready_of self.old (page_number addr) ≡ false }
        ensures { MakesReady self.old self.new (page_number addr) result }
    {
        let page = addr / PAGE_BYTES;
        let frame = image_frame(self.alloc, &self.image, page)?;
        self.frames.give_table(self.alloc, page)?;
        self.frames.set_frame(page, frame);
        Ok(())
    }

    /// The word of the data bus at the byte address of a word, or `AbsentPage` where its page is absent.
    pub fn read_word(&self, addr: u32) -> Result<u32, AbsentPage>
        requires { addr % 4 ≡ 0 }
        ensures absent { IsErr result ↔ IsTrue (absent_of self.now (page_number addr)) }
        ensures value { IfOk result (λ word. word ≡ bus_of self.now addr) }
    {
        if self.is_absent(addr / PAGE_BYTES) {
            Err(AbsentPage)
        } else {
            Ok(self.word(addr))
        }
    }

    /// Writes the low bytes of a value to the bytes of the word at a byte address that `en` touches, or answers
    /// `AbsentPage` and changes nothing where its page is absent. The page is ready.
    pub fn write_lanes(&mut self, addr: u32, en: u8, value: u32) -> Result<(), AbsentPage>
        requires word { addr % 4 ≡ 0 }
        requires ready { ready_of self.old (page_number addr) ≡ true }
        requires enable { IsEnable en }
        ensures absent { IsErr result ↔ IsTrue (absent_of self.old (page_number addr)) }
        ensures bus { OnOk result (bus_of self.new
            ≡ with_word (bus_of self.old) addr (merged en value (bus_of self.old addr))) }
        ensures image { self.new.image ≡ self.old.image }
        ensures pages { absent_of self.new ≡ absent_of self.old }
        ensures prepared { ready_of self.new ≡ ready_of self.old }
        ensures err { OnErr result (self.new ≡ self.old) }
    {
        if self.is_absent(addr / PAGE_BYTES) {
            return Err(AbsentPage);
        }
        self.put_lanes(addr, en, value);
        Ok(())
    }

    /// Writes the same as `write_lanes`, whether the page is absent or not. The page is ready.
    pub fn put_lanes(&mut self, addr: u32, en: u8, value: u32)
        requires word { addr % 4 ≡ 0 }
        requires ready { ready_of self.old (page_number addr) ≡ true }
        requires enable { IsEnable en }
        ensures bus { bus_of self.new
            ≡ with_word (bus_of self.old) addr (merged en value (bus_of self.old addr)) }
        ensures image { self.new.image ≡ self.old.image }
        ensures absent { absent_of self.new ≡ absent_of self.old }
        ensures ready { ready_of self.new ≡ ready_of self.old }
    {
        self.frames
            .put(addr / PAGE_BYTES, place_of(addr), en, value);
    }

    /// A page, by its number, is present until all are made absent.
    pub fn supply(&mut self, page: u32)
        requires { IsPage page }
        ensures absent { absent_of self.new ≡ with_page page false (absent_of self.old) }
        ensures image { self.new.image ≡ self.old.image }
        ensures bus { bus_of self.new ≡ bus_of self.old }
        ensures ready { ready_of self.new ≡ ready_of self.old }
    {
        self.absent.clear(page);
    }

    /// A page, by its number, is absent or present, whatever it was. The words stay, and whether it is ready.
    pub fn set_absent(&mut self, page: u32, absent: bool)
        requires { IsPage page }
        ensures absent { absent_of self.new ≡ with_page page absent (absent_of self.old) }
        ensures image { self.new.image ≡ self.old.image }
        ensures bus { bus_of self.new ≡ bus_of self.old }
        ensures ready { ready_of self.new ≡ ready_of self.old }
    {
        if absent {
            self.absent.mark(page);
        } else {
            self.absent.clear(page);
        }
    }

    /// Every page is absent until it is supplied, also one that is ready. The words stay, and the pages that are ready.
    pub fn evict_all(&mut self)
        ensures absent { absent_of self.new ≡ every_page }
        ensures image { self.new.image ≡ self.old.image }
        ensures bus { bus_of self.new ≡ bus_of self.old }
        ensures ready { ready_of self.new ≡ ready_of self.old }
    {
        self.absent.mark_all();
    }

    /// The words of the data bus that differ from the image's, each with its address, in order of address.
    pub fn changed(&self, alloc: Global) -> Result<Vec<(u32, u32)>, NoMemory>
        ensures { IfOk result (λ words.
            words.items ≡ changed_words (image_bus self.now.image) (bus_of self.now)) }
    {
        let mut changed = vec![in alloc]?;
        for high in 0..ENTRIES as u32 {
            if self.frames.has_table(high * ENTRIES as u32) {
                self.changed_in_table(high, &mut changed)?;
            }
        }
        Ok(changed)
    }

    /// Appends the words that differ from the image's in the pages of one table.
    fn changed_in_table(&self, high: u32, changed: &mut Vec<(u32, u32)>) -> Result<(), NoMemory>
        requires { HasComeTo self.now (high * table_entries) changed.old.items }
        ensures { OnOk result (changed.new.items
            ≡ changed_before self.now ((high + 1) * table_entries)) }
    {
        for low in 0..ENTRIES as u32 {
            self.changed_in_page(high * ENTRIES as u32 + low, changed)?;
        }
        Ok(())
    }

    /// Appends the words of a page that differ from the image's, of which a page that isn't ready has none.
    fn changed_in_page(&self, page: u32, changed: &mut Vec<(u32, u32)>) -> Result<(), NoMemory>
        requires { HasComeTo self.now page changed.old.items }
        ensures { OnOk result (changed.new.items ≡ changed_before self.now (page + 1)) }
    {
        let Some(words) = self.frames.words(page) else {
            return Ok(());
        };
        match self
            .image
            .first_taken(page * PAGE_BYTES, PAGE_BYTES as usize)
        {
            Some(_) => self.changed_in_frame(page, words, changed),
            None => self.changed_in_blank(page, words, changed),
        }
    }

    /// Appends the words that differ from 0 of a page that is ready, where the image has no byte in it.
    fn changed_in_blank(
        &self,
        page: u32,
        words: &[u32],
        changed: &mut Vec<(u32, u32)>,
    ) -> Result<(), NoMemory>
        requires walk { GoesOver self.now page words.now changed.old.items }
        requires free { IsFree (byte_at self.now.image) (page * 4096) 4096 }
        ensures { OnOk result (changed.new.items ≡ changed_before self.now (page + 1)) }
    {
        for place in 0..PAGE_WORDS {
            let word = word_among(words, place);
            if word != 0 {
                note(changed, page * PAGE_BYTES + place * 4, word)?;
            }
        }
        Ok(())
    }

    /// Appends the words of a page that is ready that differ from the image's.
    // Not inlined, so that other pages need no room for the bytes of a page.
    #[inline(never)]
    fn changed_in_frame(
        &self,
        page: u32,
        words: &[u32],
        changed: &mut Vec<(u32, u32)>,
    ) -> Result<(), NoMemory>
        requires { GoesOver self.now page words.now changed.old.items }
        ensures { OnOk result (changed.new.items ≡ changed_before self.now (page + 1)) }
    {
        let bytes = image_page(&self.image, page);
        for place in 0..PAGE_WORDS {
            let word = word_among(words, place);
            if word != page_word(&bytes, place) {
                note(changed, page * PAGE_BYTES + place * 4, word)?;
            }
        }
        Ok(())
    }
}

/// Appends a word with its address.
fn note(changed: &mut Vec<(u32, u32)>, addr: u32, word: u32) -> Result<(), NoMemory>
    ensures { OnOk result (changed.new.items ≡ changed.old.items ++ (addr, word) ∷ []) }
{
    changed.push((addr, word)).or(Err(NoMemory))
}

/// The word at a place among the words of a page.
fn word_among(words: &[u32], place: u32) -> u32
    requires { place < length words.now }
    ensures { slice_get words.now place ≡ Some result }
{
    words[place as usize]
}

/// The place of the word at a byte address among the words of its page.
fn place_of(addr: u32) -> usize
    ensures { result ≡ addr / 4 % page_words }
{
    (addr / 4 % PAGE_WORDS) as usize
}

/// A frame with the words that the image has at a page, and 0 where it has none.
fn image_frame(alloc: Global, image: &Image, page: u32) -> Result<PageFrame, NoMemory>
    requires { IsPage page }
    ensures { IfOk result (IsImageFrame image.now page) }
{
    match image.first_taken(page * PAGE_BYTES, PAGE_BYTES as usize) {
        Some(_) => copied_frame(alloc, image, page),
        None => {
            let words = vec![in alloc; 0u32; PAGE_WORDS as usize]?;
            Ok(PageFrame { words })
        }
    }
}

/// The frame of a page, made word by word from the bytes that the image has there.
// Not inlined, so that a page without a byte needs no room for the bytes of a page.
#[inline(never)]
fn copied_frame(alloc: Global, image: &Image, page: u32) -> Result<PageFrame, NoMemory>
    requires { IsPage page }
    ensures { IfOk result (IsImageFrame image.now page) }
{
    let bytes = image_page(image, page);
    let mut words = Vec::with_capacity(alloc, PAGE_WORDS as usize)?;
    for place in 0..PAGE_WORDS {
        let word = page_word(&bytes, place);
        words.push(word).or(Err(NoMemory))?;
    }
    Ok(PageFrame { words })
}
