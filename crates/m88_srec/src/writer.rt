//! S-record texts written.
ghost use Rattle.std.specs.Prelude.{◌≡◌, ◌+◌, ◌<◌, ◌≤◌, ◌^◌, ◌++◌, length, IfOk, OnOk};
ghost use Rattle.std.specs.List.{flat_map};
ghost use Rattle.m88_base.specs.Lines.{text_of_lines};
ghost use Rattle.m88_base.specs.Image.{IsImage, parts};
ghost use Rattle.m88_srec.specs.Accepted.{IsAccepted, whole_of};
ghost use Rattle.m88_srec.specs.Written.{data_lines, part_lines, srec_text};

use crate::frame::{MOST_DATA, push_data, push_end, push_header};
use m88_base::{Image, NoMemory};
use std::alloc::{AllocError, Global};

/// Appends the lines of bytes from an address on, sixteen bytes in each but the last.
fn push_part(text: &mut Vec<u8>, at: u32, bytes: &[u8]) -> Result<(), AllocError>
    requires { at + length bytes.now ≤ 2 ^ 32 }
    ensures { OnOk result (text.new.items ≡ text.old.items ++ text_of_lines
        (data_lines at bytes.now)) }
{
    let mut done = 0;
    for piece in bytes.chunks(MOST_DATA) {
        push_data(text, at + done as u32, piece)?;
        done += piece.len();
    }
    Ok(())
}

/// Appends the lines of all parts of an image.
fn push_parts(text: &mut Vec<u8>, image: &Image) -> Result<(), AllocError>
    ensures text { OnOk result (text.new.items ≡ text.old.items ++ text_of_lines
        (flat_map part_lines (parts image.now))) }
    ensures image { IsImage image.now }
{
    for index in 0..image.part_count() {
        let (at, bytes) = image.part(index);
        push_part(text, at, bytes)?;
    }
    Ok(())
}

/// The text, or that there is no memory for it.
fn written(alloc: Global, image: &Image) -> Result<Vec<u8>, AllocError>
    ensures text { IfOk result (λ text. text.items ≡ srec_text image.now) }
    ensures image { OnOk result (IsImage image.now) }
{
    let mut text = Vec::new(alloc);
    push_header(&mut text)?;
    push_parts(&mut text, image)?;
    push_end(&mut text, image.start())?;
    Ok(text)
}

/// The S-record text of an image.
pub fn write_srec(alloc: Global, image: &Image) -> Result<Vec<u8>, NoMemory>
    ensures value { IfOk result (λ text. text.items ≡ srec_text image.now) }
    ensures image { OnOk result (IsImage image.now) }

    // Reading the text again gives the image with its start, and it is short enough to be read.
    ensures again { IfOk result (λ text. IsAccepted text.items (whole_of image.now)) }
    ensures short { IfOk result (λ text. length text.items < 2 ^ 31) }
{
    let text = written(alloc, image)?;
    Ok(text)
}
