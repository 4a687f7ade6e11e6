//! The source of an image.
ghost use Rattle.std.specs.Prelude.{◌≡◌, ◌++◌, ℕ, List, IfOk, OnOk, map};
ghost use Rattle.m88_base.specs.Image.{IsImage};
ghost use Rattle.m88_base.specs.Lines.{text_of_lines};
ghost use Rattle.m88_disasm.specs.Read.{WritesImage};
ghost use Rattle.m88_sourcing.specs.Said.{told};
ghost use Rattle.m88_sourcing.specs.Source.{IsSource, far_line};

use crate::lines::{push_far, push_start_number};
use crate::outline::Outline;
use crate::pieces::push_parts;
use crate::reaching::outline_of;
use crate::said::Said;
use m88_base::{Image, NoMemory};
use std::alloc::{AllocError, Global};

/// Appends the lines that give the names of targets without a byte their values.
fn push_all_far(text: &mut Vec<u8>, outline: &Outline) -> Result<(), AllocError>
    ensures { OnOk result (text.new.items
        ≡ text.old.items ++ text_of_lines (map far_line outline.now.far.items)) }
{
    for at in &outline.far {
        push_far(text, *at)?;
    }
    Ok(())
}

/// The source, or that there is no memory for it.
fn written(alloc: Global, image: &Image, said: &Said) -> Result<Vec<u8>, AllocError>
    ensures text { IfOk result (λ text. IsSource image.now (told said.now) text.items) }
    ensures image { OnOk result (IsImage image.now) }
{
    let outline = outline_of(alloc, image, said)?;
    let mut text = Vec::new(alloc);
    push_start_number(&mut text, &outline.code, image.start())?;
    push_all_far(&mut text, &outline)?;
    push_parts(&mut text, image, &outline)?;
    Ok(text)
}

/// The source of an image that can be edited, by what is said of it: code with labels, and what isn't code as data that
/// keeps its address.
pub fn source_text(alloc: Global, image: &Image, said: &Said) -> Result<Vec<u8>, NoMemory>
    ensures value { IfOk result (λ text. IsSource image.now (told said.now) text.items) }
    ensures image { OnOk result (IsImage image.now) }

    // Read, assembled and linked, the source is the image with its start.
    ensures again { IfOk result (λ text. WritesImage text.items image.now) }

    // An image has no other source.
    ensures only { IfOk result (λ text. (other : List ℕ)
        → IsSource image.now (told said.now) other → other ≡ text.items) }
{
    let text = written(alloc, image, said)?;
    Ok(text)
}
