//! The lines that are written.
ghost use Rattle.std.specs.Prelude.{◌≡◌, ◌≤◌, ◌<◌, ◌%◌, ◌++◌, OnOk};
ghost use Rattle.m88_base.specs.RegisterSet.{registers_in};
ghost use Rattle.m88_isa.specs.Lanes.{IsEnable};
ghost use Rattle.m88_serving.specs.Served.{access_line, first_touched, load_text, mark, first_byte_of, awaited_text, registers_below, size_text, slots_text, store_text, there_text};

use m88_base::{push_decimal, push_hex8};
use m88_isa::Access;
use m88_report::push_named;
use std::alloc::AllocError;

/// Appends the line of an access of a transaction by its place, with the datum of a load.
#[tactic(auto, unfolding(crate::specs::Served::access_line))]
pub(crate) fn push_access(
    text: &mut Vec<u8>,
    index: u64,
    access: &Access,
    datum: u32,
) -> Result<(), AllocError>
    requires word { access.now.addr % 4 ≡ 0 }
    requires enable { IsEnable access.now.en }
    ensures { OnOk result (text.new.items ≡ text.old.items ++ access_line index access.now datum) }
{
    text.push(b't')?;
    push_decimal(text, index)?;
    push_mark(text, b" exchange", access.lock)?;
    if access.write {
        push_store(text, access)?;
    } else {
        push_load(text, access, datum)?;
    }
    text.push(b'\n')?;
    Ok(())
}

/// Appends a load, with the datum that it puts into its register.
#[tactic(auto, unfolding(crate::specs::Served::load_text))]
fn push_load(text: &mut Vec<u8>, access: &Access, datum: u32) -> Result<(), AllocError>
    requires word { access.now.addr % 4 ≡ 0 }
    requires enable { IsEnable access.now.en }
    ensures { OnOk result (text.new.items ≡ text.old.items ++ load_text access.now datum) }
{
    text.extend_from_slice(b" load")?;
    push_mark(text, b" signed", access.signed)?;
    text.extend_from_slice(size_text(access.en))?;
    text.extend_from_slice(b" r")?;
    push_decimal(text, u64::from(access.reg.number()))?;
    push_there(text, b" from ", first_byte_of(access), datum)?;
    Ok(())
}

/// Appends a store, with the whole register whose low bytes are stored.
#[tactic(auto, unfolding(crate::specs::Served::store_text))]
fn push_store(text: &mut Vec<u8>, access: &Access) -> Result<(), AllocError>
    requires word { access.now.addr % 4 ≡ 0 }
    requires enable { IsEnable access.now.en }
    ensures { OnOk result (text.new.items ≡ text.old.items ++ store_text access.now) }
{
    text.extend_from_slice(b" store")?;
    text.extend_from_slice(size_text(access.en))?;
    push_there(text, b" to ", first_byte_of(access), access.value)?;
    Ok(())
}

/// Appends a byte address behind a word, and what is stored or loaded there.
fn push_there(text: &mut Vec<u8>, word: &[u8], place: u32, value: u32) -> Result<(), AllocError>
    ensures { OnOk result (text.new.items ≡ text.old.items ++ there_text word.now place value) }
{
    text.extend_from_slice(word)?;
    push_hex8(text, place)?;
    text.extend_from_slice(b": ")?;
    push_hex8(text, value)
}

/// Appends a mark, where it is set.
fn push_mark(text: &mut Vec<u8>, word: &[u8], set: bool) -> Result<(), AllocError>
    ensures { OnOk result (text.new.items ≡ text.old.items ++ mark word.now set) }
{
    if set {
        text.extend_from_slice(word)?;
    }
    Ok(())
}

/// What an access is called that touches fewer bytes than a word has.
fn size_text(en: u8) -> &'static [u8]
    requires { IsEnable en }
    ensures { result.now ≡ size_text en }
{
    match en {
        15 => b"",
        12 | 3 => b" half",
        _ => b" byte",
    }
}

/// The byte address of the first byte of an access.
fn first_byte_of(access: &Access) -> u32
    requires { access.now.addr % 4 ≡ 0 }
    ensures { result ≡ first_byte_of access.now }
{
    access.addr + first_touched(access.en)
}

/// The offset of the first byte that an enable names.
fn first_touched(en: u8) -> u32
    ensures value { result ≡ first_touched en }
    ensures bound { result ≤ 3 }
{
    if en >= 8 {
        0
    } else if en >= 4 {
        1
    } else if en >= 2 {
        2
    } else {
        3
    }
}

/// Appends a line for the value of each register of a set, in order.
#[tactic(auto, unfolding(crate::specs::Served::registers_below))]
pub(crate) fn push_registers(
    text: &mut Vec<u8>,
    set: u32,
    values: &[u32; 32],
) -> Result<(), AllocError>
    ensures { OnOk result (text.new.items
        ≡ text.old.items ++ registers_below (registers_in set) values.now 32) }
{
    for r in 0..32 {
        push_register(text, set, values, r)?;
    }
    Ok(())
}

/// Appends the line for the value of a register, where the set has it.
fn push_register(
    text: &mut Vec<u8>,
    set: u32,
    values: &[u32; 32],
    r: usize,
) -> Result<(), AllocError>
    requires { r < 32 }
    ensures { OnOk result (text.new.items
        ≡ text.old.items ++ awaited_text (registers_in set) values.now r) }
{
    if is_member(set, r as u32) {
        text.push(b'r')?;
        push_decimal(text, r as u64)?;
        text.push(b' ')?;
        push_hex8(text, values[r])?;
        text.push(b'\n')?;
    }
    Ok(())
}

/// Whether a set has a register.
fn is_member(set: u32, r: u32) -> bool
    requires { r < 32 }
    ensures { result ≡ registers_in set r }
{
    r != 0 && set / (1 << r) % 2 == 1
}

/// Appends the line of SSBR, and that of the two slots at which execution goes on.
pub fn push_slots(text: &mut Vec<u8>, ssbr: u32, snip: u32, sfip: u32) -> Result<(), AllocError>
    ensures { OnOk result (text.new.items ≡ text.old.items ++ slots_text ssbr snip sfip) }
{
    push_named(text, b"ssbr", ssbr)?;
    text.push(b'\n')?;
    push_named(text, b"snip", snip)?;
    push_named(text, b" sfip", sfip)?;
    text.push(b'\n')?;
    Ok(())
}
