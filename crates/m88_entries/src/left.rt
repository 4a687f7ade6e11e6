//! The text of an entry: how it went, and what the handler left.
ghost use Rattle.std.specs.Prelude.{◌≡◌, ◌<◌, ◌++◌, IfOk, OnOk, codes};
ghost use Rattle.m88_base.specs.Lines.{line_end};
ghost use Rattle.m88_base.specs.Pages.{IsPage, page_count};
ghost use Rattle.m88_base.specs.RegisterSet.{registers_in};
ghost use Rattle.m88_handler.specs.Entering.{Faulted};
ghost use Rattle.m88_handler.specs.Handled.{base_of, handling_of};
ghost use Rattle.m88_handler.specs.Machine.{Handling};
ghost use Rattle.m88_mem.specs.DataBus.{absent_of, image_bus};
ghost use Rattle.m88_report.specs.Report.{named_word, out_text};
ghost use Rattle.m88_serving.specs.Served.{awaited_text, registers_below, slots_text};
ghost use Rattle.m88_entries.specs.Left.{entry_text, head_lines, is_shown, left_lines, left_page, left_pages};

use crate::text::push_remark;
use m88_base::{NoMemory, PAGE_BYTES, PAGE_COUNT, push_decimal, push_hex2, push_hex8};
use m88_ctrl::{Control, cr};
use m88_event::Record;
use m88_handler::{Entry, Handler, Remark, word_of};
use m88_mem::Memory;
use m88_report::{push_count, push_named, push_words};
use m88_serving::push_slots;
use std::alloc::{AllocError, Global};

/// The text of an entry by a data fault with a record.
pub fn entry_text(alloc: Global, fault: &Record, entry: &Entry) -> Result<Vec<u8>, NoMemory>
    ensures { IfOk result (λ text. (f : Faulted) (found : Handling) → f.fault ≡ fault.now
        → f.bus ≡ image_bus (base_of entry.now.left) → entry.now.found ≡ found.regs
        → text.items ≡ entry_text entry.now.remark f found (handling_of entry.now.left)) }
{
    let mut text = Vec::new(alloc);
    push_head(&mut text, &entry.remark, &entry.left)?;
    push_left(alloc, &mut text, fault, &entry.found, &entry.left)?;
    Ok(text)
}

/// Appends how an entry went, its instructions and the console.
#[tactic(auto, unfolding(crate::specs::Left::head_lines, m88_handler::specs::Handled::handling_of))]
fn push_head(text: &mut Vec<u8>, remark: &Remark, left: &Handler) -> Result<(), AllocError>
    ensures { OnOk result (text.new.items
        ≡ text.old.items ++ head_lines remark.now (handling_of left.now)) }
{
    text.extend_from_slice(b"entry ")?;
    push_remark(text, remark)?;
    text.push(b'\n')?;
    push_count(text, b"steps", u64::from(left.steps))?;
    text.extend_from_slice(b"console ")?;
    push_bytes(text, &left.console)?;
    text.push(b'\n')?;
    Ok(())
}

/// Appends bytes, or a `-` where there are none.
fn push_bytes(text: &mut Vec<u8>, bytes: &[u8]) -> Result<(), AllocError>
    ensures { OnOk result (text.new.items ≡ text.old.items ++ out_text bytes.now) }
{
    if bytes.is_empty() {
        return text.extend_from_slice(b"-");
    }
    for byte in bytes {
        push_hex2(text, *byte)?;
    }
    Ok(())
}

/// Appends what a handler left.
fn push_left(
    alloc: Global,
    text: &mut Vec<u8>,
    fault: &Record,
    found: &[u32; 32],
    left: &Handler,
) -> Result<(), NoMemory>
    ensures { OnOk result ((f : Faulted) (entered : Handling) → f.fault ≡ fault.now
        → f.bus ≡ image_bus (base_of left.now) → found.now ≡ entered.regs
        → text.new.items ≡ text.old.items ++ left_lines f entered (handling_of left.now)) }
{
    push_registers(text, fault.ssbr, found, &left.regs)?;
    let words = left.user.changed(alloc)?;
    push_words(text, words.as_slice())?;
    push_pages(text, &left.user)?;
    push_controls(text, &left.control)?;
    Ok(())
}

/// Appends the lines of EPSR, of SSBR and of the two slots.
fn push_controls(text: &mut Vec<u8>, control: &Control) -> Result<(), AllocError>
    ensures { OnOk result (text.new.items ≡ text.old.items
        ++ named_word (codes "epsr") control.now.epsr ++ line_end
        ++ slots_text control.now.ssbr control.now.snip control.now.sfip) }
{
    push_named(text, b"epsr", word_of(control, cr::EPSR))?;
    text.push(b'\n')?;
    push_slots(
        text,
        word_of(control, cr::SSBR),
        word_of(control, cr::SNIP),
        word_of(control, cr::SFIP),
    )
}

/// Appends a line for each register that was waited for, or isn't as it was found, in order.
#[tactic(auto, unfolding(m88_serving::specs::Served::registers_below))]
fn push_registers(
    text: &mut Vec<u8>,
    ssbr: u32,
    found: &[u32; 32],
    left: &[u32; 32],
) -> Result<(), AllocError>
    ensures { OnOk result (text.new.items
        ≡ text.old.items ++ registers_below (is_shown ssbr found.now left.now) left.now 32) }
{
    for r in 0..32 {
        push_register(text, ssbr, found, left, r)?;
    }
    Ok(())
}

/// Appends the line of a register, if it has one.
fn push_register(
    text: &mut Vec<u8>,
    ssbr: u32,
    found: &[u32; 32],
    left: &[u32; 32],
    r: usize,
) -> Result<(), AllocError>
    requires { r < 32 }
    ensures { OnOk result (text.new.items
        ≡ text.old.items ++ awaited_text (is_shown ssbr found.now left.now) left.now r) }
{
    if is_shown(ssbr, found, left, r) {
        text.push(b'r')?;
        push_decimal(text, r as u64)?;
        text.push(b' ')?;
        push_hex8(text, left[r])?;
        text.push(b'\n')?;
    }
    Ok(())
}

/// Whether a register was waited for, or isn't as it was found.
fn is_shown(ssbr: u32, found: &[u32; 32], left: &[u32; 32], r: usize) -> bool
    requires { r < 32 }
    ensures { result ≡ is_shown ssbr found.now left.now r }
{
    is_member(ssbr, r as u32) || found[r] != left[r]
}

/// Whether a set has a register.
fn is_member(set: u32, r: u32) -> bool
    requires { r < 32 }
    ensures { result ≡ registers_in set r }
{
    r != 0 && set / (1 << r) % 2 == 1
}

/// Appends a line for each page that is present, in order.
#[tactic(auto, unfolding(crate::specs::Left::left_pages))]
fn push_pages(text: &mut Vec<u8>, memory: &Memory) -> Result<(), AllocError>
    ensures { OnOk result (text.new.items
        ≡ text.old.items ++ left_pages (absent_of memory.now) page_count) }
{
    for page in 0..PAGE_COUNT as u32 {
        push_page(text, memory, page)?;
    }
    Ok(())
}

/// Appends the line of a page, if it is present.
fn push_page(text: &mut Vec<u8>, memory: &Memory, page: u32) -> Result<(), AllocError>
    requires { IsPage page }
    ensures { OnOk result (text.new.items
        ≡ text.old.items ++ left_page (absent_of memory.now) page) }
{
    if !memory.is_absent(page) {
        push_named(text, b"page", page * PAGE_BYTES)?;
        text.push(b'\n')?;
    }
    Ok(())
}
