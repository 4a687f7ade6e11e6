//! Pages of memory, and which of them are absent.
ghost use Rattle.std.specs.Prelude.{◌≡◌};

use arrayvec::ArrayVec;

/// The bytes of a page.
pub const PAGE_BYTES: u32 = 4096;

/// The words of a page.
pub const PAGE_WORDS: u32 = PAGE_BYTES / 4;

/// How many pages there are.
pub const PAGE_COUNT: usize = 1 << 20;

/// The pages that are absent for the data bus as a run begins.
#[derive(Drop, Debug)]
pub enum Absent {
    /// No page.
    None,
    /// Each page.
    All,
    /// The pages of these numbers, each at most 0xFFFFF.
    Pages(ArrayVec<u32, 64>),
}

impl Absent {
    /// A copy of the choice, which takes no memory.
    pub fn copy(&self) -> Absent
        ensures { result ≡ self.now }
    {
        match self {
            Absent::None => Absent::None,
            Absent::All => Absent::All,
            Absent::Pages(pages) => Absent::Pages(copied(pages)),
        }
    }
}

/// A copy of page numbers.
fn copied(pages: &ArrayVec<u32, 64>) -> ArrayVec<u32, 64>
    ensures { result ≡ pages.now }
{
    match ArrayVec::try_from(pages.as_slice()) {
        Ok(pages) => pages,
        Err(_) => unreachable!(),
    }
}
