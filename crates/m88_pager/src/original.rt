//! A page as memory has it at first.

ghost use Rattle.std.specs.Prelude.{◌≡◌, ◌+◌, ◌*◌, ◌++◌, ◌<◌, ◌≤◌, ◌^◌, length, replicate, take, IfOk, OnOk};
ghost use Rattle.m88_base.specs.Pages.{IsPage, page_bytes};
ghost use Rattle.m88_mem.specs.DataBus.{image_bytes};
ghost use Rattle.m88_pager.specs.Inside.Bytes.{IsPageFrom, IsPieceMore};
ghost use Rattle.m88_pager.specs.Pages.{page_of};

use m88_base::{Image, NoMemory, PAGE_BYTES};
use std::alloc::Global;

/// The bytes of a page that an image has, and 0 where it has none.
pub(crate) fn original_page(alloc: Global, image: &Image, page: u32) -> Result<Vec<u8>, NoMemory>
    requires { IsPage page }
    ensures { IfOk result (λ bytes. bytes.items ≡ page_of (image_bytes image.now) page) }
{
    let start = page * PAGE_BYTES;
    match image.first_taken(start, PAGE_BYTES as usize) {
        Some(_) => copied_page(alloc, image, start),
        None => zeros(alloc, PAGE_BYTES as usize),
    }
}

/// The same of a page that begins at an address, piece by piece.
fn copied_page(alloc: Global, image: &Image, start: u32) -> Result<Vec<u8>, NoMemory>
    requires { start + page_bytes ≤ 2 ^ 32 }
    ensures { IfOk result (λ bytes. IsPageFrom (image_bytes image.now) start bytes.items) }
{
    let mut bytes = Vec::with_capacity(alloc, PAGE_BYTES as usize)?;
    while bytes.len() < PAGE_BYTES as usize {
        append_piece(&mut bytes, image, start)?;
    }
    Ok(bytes)
}

/// Appends some bytes more, at least one: zeros up to the next address that has a byte, or the bytes from there on.
fn append_piece(bytes: &mut Vec<u8>, image: &Image, start: u32) -> Result<(), NoMemory>
    requires room { length bytes.old.items < page_bytes }
    requires fits { start + page_bytes ≤ 2 ^ 32 }
    ensures { OnOk result (IsPieceMore (image_bytes image.now) start
        bytes.old.items bytes.new.items) }
{
    let at = start + bytes.len() as u32;
    let left = PAGE_BYTES as usize - bytes.len();
    match image.first_taken(at, left) {
        None => append_zeros(bytes, left),
        Some(taken) if taken > at => append_zeros(bytes, (taken - at) as usize),
        Some(_) => append_some(bytes, image.rest(at), left),
    }
}

/// Appends so many zeros.
fn append_zeros(bytes: &mut Vec<u8>, count: usize) -> Result<(), NoMemory>
    ensures { OnOk result (bytes.new.items ≡ bytes.old.items ++ replicate count 0) }
{
    for _ in 0..count {
        bytes.push(0).or(Err(NoMemory))?;
    }
    Ok(())
}

/// Appends the first of some bytes, at most so many.
fn append_some(bytes: &mut Vec<u8>, others: &[u8], most: usize) -> Result<(), NoMemory>
    ensures { OnOk result (bytes.new.items ≡ bytes.old.items ++ take most others.now) }
{
    bytes.extend_from_slice(&others[..others.len().min(most)])?;
    Ok(())
}

/// So many zeros.
fn zeros(alloc: Global, count: usize) -> Result<Vec<u8>, NoMemory>
    ensures { IfOk result (λ bytes. bytes.items ≡ replicate count 0) }
{
    Ok(vec![in alloc; 0u8; count]?)
}
