//! The words of data memory before, as an image.
ghost use Rattle.std.specs.Prelude.{◌≡◌, ◌%◌, All, IfOk, MatchBool};
ghost use Rattle.m88_serving.specs.Inside.Naming.{StoodBefore, IsNaming, NamesOneMore};

use m88_base::{Image, ImageFault, NoMemory};
use std::alloc::Global;

/// What becomes of naming words.
#[derive(Drop)]
pub(crate) enum Naming {
    /// An image that has them, and no other byte.
    Named(Image),
    /// The first line, of which the first word has number 5, that names a word once more.
    Twice(u64),
}

/// The line of the first word.
const FIRST_WORD: u64 = 5;

/// Names words with their byte addresses in an image, one after the other.
pub(crate) fn name_all(alloc: Global, words: &[(u32, u32)]) -> Result<Naming, NoMemory>
    requires { All (λ word. word.0 % 4 ≡ 0) words.now }
    ensures { IfOk result (IsNaming words.now) }
{
    let mut image = Image::new(alloc);
    for index in 0..words.len() {
        let (at, value) = words[index];
        if !name(&mut image, at, value)? {
            return Ok(Naming::Twice(FIRST_WORD + index as u64));
        }
    }
    Ok(Naming::Named(image))
}

/// Puts a word into an image at a byte address, and answers whether it wasn't there before.
fn name(image: &mut Image, at: u32, value: u32) -> Result<bool, NoMemory>
    requires { at % 4 ≡ 0 }
    ensures { IfOk result (λ put.
        MatchBool put (NamesOneMore image.old image.new at value) (StoodBefore image.old at)) }
{
    match image.add(at, &value.to_be_bytes()) {
        Ok(()) => Ok(true),
        Err(ImageFault::Overlap(_)) => Ok(false),
        // An input has far fewer lines than words that make an image too large.
        Err(ImageFault::Memory | ImageFault::TooLarge) => Err(NoMemory),
    }
}
