//! A bit for each of the pages, 32 to a word.
ghost use Rattle.std.specs.Prelude.{[], ◌∷◌, ◌++◌, ◌≡◌, ◌||◌, ◌&&◌, ◌==◌, ◌%◌, ℕ, All, true, false, length, if◌then◌else◌, IfOk};
ghost use Rattle.std.specs.Int.{bit_at};
ghost use Rattle.std.specs.List.{list_any};
ghost use Rattle.m88_base.specs.Pages.{IsPage, every_page};
ghost use Rattle.m88_mem.specs.Inside.Marks.{AreMarks, every_bit, is_full, is_in, is_marked, mark_words, may_lack};
ghost use Rattle.m88_mem.specs.Marks.{NamesPages, absent_in, with_page};

use m88_base::{Absent, NoMemory, PAGE_COUNT};
use std::alloc::Global;
use std::marker::Model;

/// The pages of one word.
const PAGES: u32 = 32;

/// The words of all pages.
const WORDS: usize = PAGE_COUNT / PAGES as usize;

/// The most words whose places are noted.
const MOST_NOTED: usize = 1024;

/// A set of pages, which has the bit of each page that is in it.
#[derive(Drop, Debug)]
pub(crate) struct PageMarks {
    words: Vec<u32>,
    /// So that all pages are put in at the cost of those that were taken out since the last time.
    gaps: Gaps,
}

/// The places of the words that may lack a bit.
#[derive(Drop, Debug)]
pub(crate) struct Gaps {
    pub noted: Vec<u32>,
    /// Whether a word may lack a bit that isn't noted.
    pub more: bool,
}

impl Model for PageMarks {
    ghost use Rattle.std.specs.Prelude.{Bool, List};
    ghost use Rattle.m88_mem.specs.Inside.Frames.{by_page};
    ghost use Rattle.m88_mem.specs.Inside.Marks.{AreMarks, is_marked};

    ghost Value = { List Bool };

    ghost view = { λ marks. by_page (is_marked marks.words.items) };

    ghost invariant = { λ marks. AreMarks marks.words.items marks.gaps };
}

impl PageMarks {
    /// The pages that a choice makes absent.
    pub fn new(alloc: Global, absent: &Absent) -> Result<PageMarks, NoMemory>
        requires { NamesPages absent.now }
        ensures { IfOk result (λ marks. (p : ℕ) → is_in marks p ≡ absent_in absent.now p) }
    {
        let words = absent_words(alloc, absent)?;
        let noted = Vec::with_capacity(alloc, MOST_NOTED)?;
        Ok(PageMarks {
            words,
            gaps: Gaps { noted, more: true },
        })
    }

    /// Takes a page out of the set.
    pub fn clear(&mut self, page: u32)
        requires { IsPage page }
        ensures { is_in self.new ≡ with_page page false (is_in self.old) }
    {
        let place = page / PAGES;
        let word = self.words[place as usize];
        self.gaps.note(place, word);
        self.words[place as usize] = word & !(1 << (page % PAGES));
    }

    /// Puts a page into the set.
    pub fn mark(&mut self, page: u32)
        requires { IsPage page }
        ensures { is_in self.new ≡ with_page page true (is_in self.old) }
    {
        set(&mut self.words, page);
    }

    /// Whether a page is in the set.
    pub fn is_marked(&self, page: u32) -> bool
        requires { IsPage page }
        ensures { result ≡ is_in self.now page }
    {
        (self.words[(page / PAGES) as usize] >> (page % PAGES)) % 2 == 1
    }

    /// Puts every page into the set.
    pub fn mark_all(&mut self)
        ensures { is_in self.new ≡ every_page }
    {
        fill_gaps(&mut self.words, &self.gaps);
        self.gaps.noted.clear();
        self.gaps.more = false;
    }
}

impl Gaps {
    /// Notes the place of a word that is to lack a bit, where it lacks none yet.
    fn note(&mut self, place: u32, word: u32)
        ensures stays { (k : ℕ) → may_lack self.old k ≡ true → may_lack self.new k ≡ true }
        ensures noted { word ≡ every_bit → may_lack self.new place ≡ true }
    {
        if word == u32::MAX && !push_within(&mut self.noted, place) {
            self.more = true;
        }
    }
}

/// Appends a place, unless so many are noted that there is no room. Whether it did.
fn push_within(noted: &mut Vec<u32>, place: u32) -> bool
    ensures { noted.new.items ≡ (if result then noted.old.items ++ place ∷ [] else noted.old.items) }
{
    noted.len() < MOST_NOTED && noted.push(place).is_ok()
}

/// Gives every word all its bits.
fn fill_gaps(words: &mut Vec<u32>, gaps: &Gaps)
    requires { AreMarks words.old.items gaps.now }
    ensures { (length words.new.items ≡ mark_words)
        × ((k : ℕ) → is_full words.new.items k ≡ true) }
{
    if gaps.more {
        words.fill(u32::MAX);
    } else {
        fill_at(words, &gaps.noted);
    }
}

/// Gives the words at some places all their bits.
fn fill_at(words: &mut Vec<u32>, places: &[u32])
    ensures { (length words.new.items ≡ length words.old.items)
        × ((k : ℕ) → is_full words.new.items k
        ≡ (list_any (λ place. place == k) places.now || is_full words.old.items k)) }
{
    for place in places {
        fill_word(words, *place);
    }
}

/// Gives the word at a place all its bits, where it is there.
fn fill_word(words: &mut Vec<u32>, place: u32)
    ensures { (length words.new.items ≡ length words.old.items)
        × ((k : ℕ) → is_full words.new.items k ≡ (place == k || is_full words.old.items k)) }
{
    if let Some(word) = words.get_mut(place as usize) {
        *word = u32::MAX;
    }
}

/// A bit for each page that a choice makes absent.
fn absent_words(alloc: Global, absent: &Absent) -> Result<Vec<u32>, NoMemory>
    requires { NamesPages absent.now }
    ensures long { IfOk result (λ words. length words.items ≡ mark_words) }
    ensures marked { IfOk result (λ words. (p : ℕ) → is_marked words.items p
        ≡ absent_in absent.now p) }
{
    match absent {
        Absent::None => {
            let words = alike(alloc, 0)?;
            Ok(words)
        }
        Absent::All => {
            let words = alike(alloc, u32::MAX)?;
            Ok(words)
        }
        Absent::Pages(pages) => {
            let mut words = alike(alloc, 0)?;
            set_all(&mut words, pages.as_slice());
            Ok(words)
        }
    }
}

/// The bits of pages by those of one word, which stand again every 32 pages.
fn alike(alloc: Global, word: u32) -> Result<Vec<u32>, NoMemory>
    ensures long { IfOk result (λ words. length words.items ≡ mark_words) }
    ensures marked { IfOk result (λ words. (p : ℕ) → is_marked words.items p
        ≡ (bit_at word (p % 32) == 1 && every_page p)) }
{
    let words = vec![in alloc; word; WORDS]?;
    Ok(words)
}

/// Sets the bits of some pages.
fn set_all(words: &mut Vec<u32>, pages: &[u32])
    requires pages { All IsPage pages.now }
    requires long { length words.old.items ≡ mark_words }
    ensures long { length words.new.items ≡ mark_words }
    ensures marked { (p : ℕ) → is_marked words.new.items p
        ≡ (list_any (λ page. page == p) pages.now || is_marked words.old.items p) }
{
    for page in pages {
        set(words, *page);
    }
}

/// Sets the bit of a page.
fn set(words: &mut Vec<u32>, page: u32)
    requires page { IsPage page }
    requires long { length words.old.items ≡ mark_words }
    ensures long { length words.new.items ≡ mark_words }
    ensures marked { (p : ℕ) → is_marked words.new.items p
        ≡ (page == p || is_marked words.old.items p) }
    ensures full { (k : ℕ) → is_full words.old.items k ≡ true
        → is_full words.new.items k ≡ true }
{
    words[(page / PAGES) as usize] |= 1 << (page % PAGES);
}
