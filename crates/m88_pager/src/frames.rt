//! Frames before a store of pages.

ghost use Rattle.std.specs.Prelude.{◌∷◌, [], ◌-◌, ◌≤◌, All, length, map, IfOk, IsErrOf, OnOk};
ghost use Rattle.std.specs.NonZero.{non_zero_usize_get};
ghost use Rattle.m88_base.specs.Pages.{IsPage};
ghost use Rattle.m88_isa.specs.Held.{most_pending};
ghost use Rattle.m88_isa.specs.Memory.{IsWordAccess};
ghost use Rattle.m88_isa.specs.Triples.{access_in};
ghost use Rattle.m88_mem.specs.DataBus.{image_bytes};
ghost use Rattle.m88_pager.specs.Inside.Calls.{AreCarriedOn, AreEmpty, AreFlushed, HasFreed, HasLeft, HasPlace, HasPutOut, IsBrought, IsPutInFront, IsTried, IsWorked, MayCarry, MayComeIn, MayFlush, MayLeave, MayPutOut, MayWork, PutsPages, ReadsStore};
ghost use Rattle.m88_pager.specs.Inside.Seen.{AreWithin, ComesWhole, IsSpare, IsWordTriple, held_by, most_counted};
ghost use Rattle.m88_pager.specs.Pages.{page_of};
ghost use Rattle.m88_pager.specs.declared.paged.PageEnd.TheVariants.{StoreFault};

use crate::original::original_page;
use crate::paged::PageEnd;
use crate::store::PageStore;
use crate::word::{put_word, word_at};
use lru::LruCache;
use m88_base::{Image, NoMemory, PAGE_BYTES, Triple};
use m88_isa::{Access, access_in, merge};
use std::alloc::Global;
use std::collections::BTreeSet;
use std::num::NonZeroUsize;

/// A frame: the bytes of a page, and whether they were written since it came in.
#[derive(Drop, Debug)]
pub struct Frame {
    pub bytes: Vec<u8>,
    pub dirty: bool,
}

/// Frames, the most recently used first, the pages that were written to the store, and the counts of pages that came in
/// and of dirty ones that went out.
#[derive(Drop, Debug)]
pub struct Frames {
    pub alloc: Global,
    pub cache: LruCache<u32, Frame>,
    pub held: BTreeSet<u32>,
    pub ins: u32,
    pub outs: u32,
}

impl Frames {
    /// So many frames, in which no page stands.
    pub fn new(alloc: Global, count: NonZeroUsize) -> Result<Frames, NoMemory>
        ensures { IfOk result (AreEmpty (non_zero_usize_get count)) }
    {
        let cache = LruCache::new(alloc, count)?;
        Ok(Frames {
            alloc,
            cache,
            held: BTreeSet::new(alloc),
            ins: 0,
            outs: 0,
        })
    }

    /// Writes a page to the store.
    fn put_out<P: PageStore>(
        &mut self,
        store: &mut P,
        page: u32,
        bytes: &[u8],
    ) -> Result<(), PageEnd>
        requires { MayPutOut page bytes.now self.old }
        ensures out { OnOk result (HasPutOut page bytes.now self.old self.new (P.pages store.old)
            (P.pages store.new)) }
        ensures store { PutsPages self.old.outs self.new.outs (P.pages store.old)
            (P.pages store.new) (P.writes store.old) (P.writes store.new) (P.faults store.old)
            (P.faults store.new) result }
    {
        store.write(page, bytes)?;
        self.held.insert(page).or(Err(PageEnd::Memory))?;
        self.outs += 1;
        Ok(())
    }

    /// The page that was used least recently leaves its frame, to the store where it is dirty. Its bytes are handed on.
    fn leave<P: PageStore>(&mut self, store: &mut P) -> Result<Vec<u8>, PageEnd>
        requires { MayLeave self.old }
        ensures left { IfOk result (λ bytes. HasLeft bytes.items self.old self.new
            (P.pages store.old) (P.pages store.new)) }
        ensures store { PutsPages self.old.outs self.new.outs (P.pages store.old)
            (P.pages store.new) (P.writes store.old) (P.writes store.new) (P.faults store.old)
            (P.faults store.new) result }
    {
        // That no page stands in two frames is told with their number.
        prove!(self.cache.len() <= self.cache.cap().get());
        let Some((page, frame)) = self.cache.pop_lru() else {
            unreachable!();
        };
        if !frame.dirty {
            return Ok(frame.bytes);
        }
        self.put_out(store, page, &frame.bytes)?;
        Ok(frame.bytes)
    }

    /// Makes a frame free where all are taken. The bytes of the page that left it are handed on.
    fn make_room<P: PageStore>(&mut self, store: &mut P) -> Result<Option<Vec<u8>>, PageEnd>
        requires { AreWithin most_counted self.old }
        ensures freed { IfOk result (λ spare. HasFreed spare self.old self.new (P.pages store.old)
            (P.pages store.new)) }
        ensures store { PutsPages self.old.outs self.new.outs (P.pages store.old)
            (P.pages store.new) (P.writes store.old) (P.writes store.new) (P.faults store.old)
            (P.faults store.new) result }
    {
        if self.cache.len() < self.cache.cap().get() {
            return Ok(None);
        }
        Ok(Some(self.leave(store)?))
    }

    /// The bytes of a page as the store has them, where it was written there, and else as memory has them at first. Those
    /// of a page that left may be handed on, to be written over.
    fn bytes_of<P: PageStore>(
        &self,
        store: &mut P,
        image: &Image,
        page: u32,
        spare: Option<Vec<u8>>,
    ) -> Result<Vec<u8>, PageEnd>
        requires page { IsPage page }
        requires spare { IsSpare spare }
        ensures comes { IfOk result (λ bytes. ComesWhole (page_of (image_bytes image.now))
            (held_by self.now) (P.pages store.old) page bytes.items) }
        ensures store { ReadsStore (P.pages store.old) (P.pages store.new) (P.writes store.old)
            (P.writes store.new) (P.faults store.old) (P.faults store.new) result }
    {
        if !self.held.contains(&page) {
            return Ok(original_page(self.alloc, image, page)?);
        }
        let mut bytes = match spare {
            Some(bytes) => bytes,
            None => original_page(self.alloc, image, page)?,
        };
        if store.read(page, bytes.as_mut_slice())? {
            return Ok(bytes);
        }
        // A store that doesn't tell its pages may have forgotten this one.
        Ok(original_page(self.alloc, image, page)?)
    }

    /// A page that stands in no frame comes in, clean.
    fn come_in<P: PageStore>(
        &mut self,
        store: &mut P,
        image: &Image,
        page: u32,
    ) -> Result<Frame, PageEnd>
        requires page { IsPage page }
        requires may { MayComeIn page self.old }
        ensures place { OnOk result (HasPlace page self.new) }
        ensures brought { IfOk result (λ frame. IsBrought (page_of (image_bytes image.now)) page
            frame self.old self.new (P.pages store.old) (P.pages store.new)) }
        ensures store { PutsPages self.old.outs self.new.outs (P.pages store.old)
            (P.pages store.new) (P.writes store.old) (P.writes store.new) (P.faults store.old)
            (P.faults store.new) result }
    {
        let spare = self.make_room(store)?;
        let bytes = self.bytes_of(store, image, page, spare)?;
        self.ins += 1;
        Ok(Frame {
            bytes,
            dirty: false,
        })
    }

    /// Carries a transaction out in the frame in which its page stands, which comes to the front. Answers whether there is
    /// one; where there is none, nothing changes.
    fn carry_out_there(&mut self, access: &Access) -> bool
        requires { MayCarry access.now self.old }
        ensures { IsTried access.now result self.old self.new }
    {
        match self.cache.get_mut(&(access.addr / PAGE_BYTES)) {
            Some(frame) => {
                work(frame, access);
                true
            }
            None => false,
        }
    }

    /// Puts the frame of a page in front.
    fn put_in_front(&mut self, page: u32, frame: Frame) -> Result<(), PageEnd>
        requires { HasPlace page self.old }
        ensures front { OnOk result (IsPutInFront page frame self.old self.new) }
        ensures memory { IsErrOf result StoreFault → ⊥ }
    {
        match self.cache.put(page, frame) {
            Ok(_) => Ok(()),
            Err(_) => Err(PageEnd::Memory),
        }
    }

    /// Carries a transaction out in the frames: its page comes to the front, and where it writes, the page is changed
    /// there.
    pub fn carry_out<P: PageStore>(
        &mut self,
        store: &mut P,
        image: &Image,
        access: &Access,
    ) -> Result<(), PageEnd>
        requires word { IsWordAccess access.now }
        requires within { AreWithin most_counted self.old }
        ensures carried { OnOk result (AreCarriedOn (image_bytes image.now) (access.now ∷ [])
            self.old self.new (P.pages store.old) (P.pages store.new)) }
        ensures store { PutsPages self.old.outs self.new.outs (P.pages store.old)
            (P.pages store.new) (P.writes store.old) (P.writes store.new) (P.faults store.old)
            (P.faults store.new) result }
    {
        if self.carry_out_there(access) {
            return Ok(());
        }
        let page = access.addr / PAGE_BYTES;
        let mut frame = self.come_in(store, image, page)?;
        work(&mut frame, access);
        self.put_in_front(page, frame)
    }

    /// Carries the transactions of some words out, in order.
    pub fn carry_all<P: PageStore>(
        &mut self,
        store: &mut P,
        image: &Image,
        words: &[Triple],
    ) -> Result<(), PageEnd>
        requires made { All IsWordTriple words.now }
        requires few { length words.now ≤ most_pending }
        requires within { AreWithin (most_counted - most_pending) self.old }
        ensures carried { OnOk result (AreCarriedOn (image_bytes image.now)
            (map access_in words.now) self.old self.new (P.pages store.old) (P.pages store.new)) }
        ensures store { PutsPages self.old.outs self.new.outs (P.pages store.old)
            (P.pages store.new) (P.writes store.old) (P.writes store.new) (P.faults store.old)
            (P.faults store.new) result }
    {
        for triple in words {
            self.carry_out(store, image, &access_in(triple))?;
        }
        Ok(())
    }

    /// Each page leaves its frame, the one that was used least recently first.
    pub fn flush<P: PageStore>(&mut self, store: &mut P) -> Result<(), PageEnd>
        requires { MayFlush self.old }
        ensures flushed { OnOk result (AreFlushed self.old self.new (P.pages store.old)
            (P.pages store.new)) }
        ensures store { PutsPages self.old.outs self.new.outs (P.pages store.old)
            (P.pages store.new) (P.writes store.old) (P.writes store.new) (P.faults store.old)
            (P.faults store.new) result }
    {
        while self.cache.len() > 0 {
            self.leave(store)?;
        }
        Ok(())
    }
}

/// Works an access on the frame of its page: where it writes, its word is changed, and the frame is dirty.
fn work(frame: &mut Frame, access: &Access)
    requires { MayWork access.now frame.old }
    ensures { IsWorked access.now frame.old frame.new }
{
    if !access.write {
        return;
    }
    let place = (access.addr % PAGE_BYTES) as usize;
    let word = merge(access.en, access.value, word_at(&frame.bytes, place));
    put_word(frame.bytes.as_mut_slice(), place, word);
    frame.dirty = true;
}
