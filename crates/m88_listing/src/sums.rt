//! How many bytes the sections of objects have, by where they stand.
ghost use Rattle.std.specs.Prelude.{◌≡◌, ◌+◌, ◌++◌, ◌≤◌, filter, OnOk};
ghost use Rattle.m88_base.specs.Image.{most_bytes};
ghost use Rattle.m88_base.specs.Lines.{line_end};
ghost use Rattle.m88_link.specs.Sizes.{sections_size, total_size};
ghost use Rattle.m88_listing.specs.Sums.{is_at, is_data, is_text, sum_line, sum_where};

use m88_base::{push_decimal, push_hex8};
use m88_link::{Object, Place, Section};
use std::alloc::AllocError;

/// The number of bytes of text, of data, and of the sections at addresses of their own.
#[derive(Clone, Copy, PartialEq, Eq, Debug)]
pub(crate) struct Sums {
    pub text_size: usize,
    pub data_size: usize,
    pub at_size: usize,
}

/// The sums with the bytes of sections added.
fn with_sections(sums: Sums, sections: &[Section]) -> Sums
    requires { sums.text_size + sums.data_size + sums.at_size + sections_size sections.now
        ≤ most_bytes }
    ensures text { result.text_size
        ≡ sums.text_size + sections_size (filter (λ x. is_text x.place) sections.now) }
    ensures data { result.data_size
        ≡ sums.data_size + sections_size (filter (λ x. is_data x.place) sections.now) }
    ensures at { result.at_size
        ≡ sums.at_size + sections_size (filter (λ x. is_at x.place) sections.now) }
    ensures all { result.text_size + result.data_size + result.at_size
        ≡ sums.text_size + sums.data_size + sums.at_size + sections_size sections.now }
{
    let mut sums = sums;
    for section in sections {
        let len = section.bytes.as_slice().len();
        match section.place {
            Place::Text => sums.text_size += len,
            Place::DataSection => sums.data_size += len,
            Place::At(_) => sums.at_size += len,
        }
    }
    sums
}

/// The sums of objects, which have at most 1,048,576 bytes.
fn sums_of(objects: &[Object]) -> Sums
    requires { total_size objects.now ≤ most_bytes }
    ensures text { result.text_size ≡ sum_where is_text objects.now }
    ensures data { result.data_size ≡ sum_where is_data objects.now }
    ensures at { result.at_size ≡ sum_where is_at objects.now }
{
    let mut sums = Sums {
        text_size: 0,
        data_size: 0,
        at_size: 0,
    };
    for object in objects {
        sums = with_sections(sums, object.sections.as_slice());
    }
    sums
}

/// Appends an empty line and the sums of objects with their start.
pub(crate) fn push_sums(
    text: &mut Vec<u8>,
    objects: &[Object],
    start: u32,
) -> Result<(), AllocError>
    requires { total_size objects.now ≤ most_bytes }
    ensures { OnOk result (text.new.items
        ≡ text.old.items ++ (line_end ++ (sum_line objects.now start ++ line_end))) }
{
    let sums = sums_of(objects);
    text.extend_from_slice(b"\ntext ")?;
    push_decimal(text, sums.text_size as u64)?;
    text.extend_from_slice(b" data ")?;
    push_decimal(text, sums.data_size as u64)?;
    text.extend_from_slice(b" at ")?;
    push_decimal(text, sums.at_size as u64)?;
    text.extend_from_slice(b" start ")?;
    push_hex8(text, start)?;
    text.push(b'\n')?;
    Ok(())
}
