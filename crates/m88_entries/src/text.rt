//! How an entry went, in words.
ghost use Rattle.std.specs.Prelude.{◌≡◌, ◌++◌, OnOk};
ghost use Rattle.m88_entries.specs.Left.{cause_text, for_text, place_text, remark_text};

use m88_base::{push_decimal, push_hex8};
use m88_handler::{Cause, Difference, Place, Remark};
use m88_report::push_named;
use std::alloc::AllocError;

/// Appends how an entry went.
#[tactic(auto, unfolding(crate::specs::Left::remark_text))]
pub(crate) fn push_remark(text: &mut Vec<u8>, remark: &Remark) -> Result<(), AllocError>
    ensures { OnOk result (text.new.items ≡ text.old.items ++ remark_text remark.now) }
{
    match remark {
        Remark::Kept => text.extend_from_slice(b"kept"),
        Remark::Differs(difference) => {
            text.extend_from_slice(b"differs ")?;
            push_difference(text, difference)
        }
        Remark::Stops => text.extend_from_slice(b"stops"),
        Remark::Fails(cause, at) => {
            text.extend_from_slice(b"fails ")?;
            push_cause(text, *cause)?;
            push_named(text, b" at", *at)
        }
    }
}

/// Appends why a handler failed.
#[tactic(auto, unfolding(crate::specs::Left::cause_text))]
fn push_cause(text: &mut Vec<u8>, cause: Cause) -> Result<(), AllocError>
    ensures { OnOk result (text.new.items ≡ text.old.items ++ cause_text cause) }
{
    match cause {
        Cause::Vector(vector) => {
            text.extend_from_slice(b"vector ")?;
            push_decimal(text, u64::from(vector))
        }
        Cause::Psr => text.extend_from_slice(b"psr"),
        Cause::Steps => text.extend_from_slice(b"steps"),
        Cause::Sfrz => text.extend_from_slice(b"sfrz"),
        Cause::Epsr => text.extend_from_slice(b"epsr"),
        Cause::Ssbr => text.extend_from_slice(b"ssbr"),
        Cause::Sfip => text.extend_from_slice(b"sfip"),
    }
}

/// Appends a place at which something differs, with what the handler left there and what was wanted.
#[tactic(auto, unfolding(crate::specs::Left::place_text))]
fn push_difference(text: &mut Vec<u8>, difference: &Difference) -> Result<(), AllocError>
    ensures { OnOk result (text.new.items ≡ text.old.items
        ++ place_text difference.now.place difference.now.left difference.now.wanted) }
{
    let (left, wanted) = (difference.left, difference.wanted);
    match difference.place {
        Place::Register(r) => {
            text.push(b'r')?;
            push_decimal(text, u64::from(r))?;
            text.push(b' ')?;
            push_for(text, left, wanted)
        }
        Place::Word(address) => {
            push_named(text, b"mem", address)?;
            text.push(b' ')?;
            push_for(text, left, wanted)
        }
        Place::Page(address) => {
            push_named(text, b"page", address)?;
            text.push(b' ')?;
            push_decimal(text, u64::from(left))?;
            text.extend_from_slice(b" for ")?;
            push_decimal(text, u64::from(wanted))
        }
        Place::Status => {
            text.extend_from_slice(b"epsr ")?;
            push_for(text, left, wanted)
        }
        Place::Next => {
            text.extend_from_slice(b"snip ")?;
            push_for(text, left, wanted)
        }
        Place::Following => {
            text.extend_from_slice(b"sfip ")?;
            push_for(text, left, wanted)
        }
    }
}

/// Appends two words, the handler's first.
#[tactic(auto, unfolding(crate::specs::Left::for_text))]
fn push_for(text: &mut Vec<u8>, left: u32, wanted: u32) -> Result<(), AllocError>
    ensures { OnOk result (text.new.items ≡ text.old.items ++ for_text left wanted) }
{
    push_hex8(text, left)?;
    push_named(text, b" for", wanted)
}
