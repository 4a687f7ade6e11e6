//! The bytes of a statement, and its uses of symbols, put into a section.
ghost use Rattle.std.specs.Prelude.{◌≡◌, ◌+◌, ◌++◌, length, OnOk, flat_map};
ghost use Rattle.std.specs.Int.{to_be_bytes, w16, w32};
ghost use Rattle.m88_parse.specs.WellFormed.{IsAlignment, IsFormedBody};
ghost use Rattle.m88_link.specs.Sound.{HasRoom, origin};
ghost use Rattle.m88_asm.specs.Counters.{length_at, padding};
ghost use Rattle.m88_asm.specs.Inside.Drafts.{with_bytes};
ghost use Rattle.m88_asm.specs.Faults.{alignment_of};
ghost use Rattle.m88_asm.specs.Filled.{waiting_bytes, waiting_word};
ghost use Rattle.m88_asm.specs.Objects.{use_at, use_in_code, use_in_value, uses_in_body, uses_in_values};

use crate::growing::Growing;
use m88_base::{Fixup, Kind};
use m88_codec::encode;
use m88_link::Reloc;
use m88_parse::{Body, Value};
use std::alloc::AllocError;

/// The use of a symbol in a word.
fn use_at(kind: Kind, section: u32, offset: u32, line: u32, fixup: &Fixup) -> Reloc
    ensures { result ≡ use_at kind section offset line fixup.now }
{
    Reloc {
        kind,
        section,
        offset,
        symbol: fixup.symbol,
        addend: fixup.addend,
        line,
        col: fixup.col,
    }
}

/// Puts one word of `.word` into section `number`.
fn word(
    section: &mut Growing,
    uses: &mut Vec<Reloc>,
    number: u32,
    line: u32,
    value: &Value,
) -> Result<(), AllocError>
    requires { HasRoom (with_bytes section.old (to_be_bytes w32 (waiting_word value.now))) }
    ensures bytes { OnOk result
        (section.new ≡ with_bytes section.old (to_be_bytes w32 (waiting_word value.now))) }
    ensures uses { OnOk result (uses.new.items
        ≡ uses.old.items ++ use_in_value number (length section.old.bytes) line value.now) }
{
    let offset = section.len() as u32;
    match value {
        Value::Number(n) => section.push_all(&n.to_be_bytes()),
        Value::Symbol(fixup) => {
            uses.push(use_at(Kind::Abs32, number, offset, line, fixup))?;
            section.push_zeros(4)
        }
    }
}

/// Puts the words of `.word` into section `number`.
fn words(
    section: &mut Growing,
    uses: &mut Vec<Reloc>,
    number: u32,
    line: u32,
    values: &[Value],
) -> Result<(), AllocError>
    requires { HasRoom
        (with_bytes section.old (flat_map (λ v. to_be_bytes w32 (waiting_word v)) values.now)) }
    ensures bytes { OnOk result (section.new
        ≡ with_bytes section.old (flat_map (λ v. to_be_bytes w32 (waiting_word v)) values.now)) }
    ensures uses { OnOk result (uses.new.items
        ≡ uses.old.items ++ uses_in_values number (length section.old.bytes) line values.now) }
{
    for value in values {
        word(section, uses, number, line, value)?;
    }
    Ok(())
}

/// Puts the half words of `.half` into a section.
fn halves(section: &mut Growing, numbers: &[u16]) -> Result<(), AllocError>
    requires { HasRoom (with_bytes section.old (flat_map (λ n. to_be_bytes w16 n) numbers.now)) }
    ensures { OnOk result
        (section.new ≡ with_bytes section.old (flat_map (λ n. to_be_bytes w16 n) numbers.now)) }
{
    for n in numbers {
        section.push_all(&n.to_be_bytes())?;
    }
    Ok(())
}

/// Puts an instruction's word into section `number`.
fn code(
    section: &mut Growing,
    uses: &mut Vec<Reloc>,
    number: u32,
    line: u32,
    word: u32,
    fixup: &Option<Fixup>,
) -> Result<(), AllocError>
    requires { HasRoom (with_bytes section.old (to_be_bytes w32 word)) }
    ensures bytes { OnOk result (section.new ≡ with_bytes section.old (to_be_bytes w32 word)) }
    ensures uses { OnOk result (uses.new.items
        ≡ uses.old.items ++ use_in_code number (length section.old.bytes) line fixup.now) }
{
    if let Some(fixup) = fixup {
        let offset = section.len() as u32;
        uses.push(use_at(fixup.kind, number, offset, line, fixup))?;
    }
    section.push_all(&word.to_be_bytes())
}

/// The number of zero bytes from a place up to a multiple of n.
fn padding(n: usize, place: usize) -> usize
    requires { IsAlignment n }
    ensures { result ≡ padding n place }
{
    (n - place % n) % n
}

/// The multiple at which a body's words stand.
pub(crate) fn alignment_of(body: &Body) -> usize
    ensures { result ≡ alignment_of body.now }
{
    match body {
        Body::Word(_) => 4,
        Body::Half(_) => 2,
        Body::Code(_, _) => 4,
        _ => 1,
    }
}

/// The number of bytes that a body gives, where this is the place that alignment goes by.
pub fn length_at(place: usize, body: &Body) -> usize
    requires { IsFormedBody body.now }
    ensures { result ≡ length_at place body.now }
{
    match body {
        Body::Word(values) => 4 * values.as_slice().len(),
        Body::Half(numbers) => 2 * numbers.as_slice().len(),
        Body::Byte(bytes) => bytes.as_slice().len(),
        Body::Ascii(bytes) => bytes.as_slice().len(),
        Body::Zero(n) => *n as usize,
        Body::Align(n) => padding(*n as usize, place),
        Body::Code(_, _) => 4,
        _ => 0,
    }
}

/// Puts a body into section `number`.
pub(crate) fn fill(
    section: &mut Growing,
    uses: &mut Vec<Reloc>,
    number: u32,
    line: u32,
    body: &Body,
) -> Result<(), AllocError>
    requires formed { IsFormedBody body.now }
    requires room { HasRoom (with_bytes section.old
        (waiting_bytes (origin section.old.place + length section.old.bytes) body.now)) }
    ensures bytes { OnOk result (section.new ≡ with_bytes section.old
        (waiting_bytes (origin section.old.place + length section.old.bytes) body.now)) }
    ensures uses { OnOk result (uses.new.items
        ≡ uses.old.items ++ uses_in_body number (length section.old.bytes) line body.now) }
{
    match body {
        Body::Word(values) => words(section, uses, number, line, values.as_slice()),
        Body::Half(numbers) => halves(section, numbers.as_slice()),
        Body::Byte(bytes) | Body::Ascii(bytes) => section.push_all(bytes.as_slice()),
        Body::Zero(n) => section.push_zeros(*n as usize),
        Body::Align(n) => {
            let place = section.place();
            section.push_zeros(padding(*n as usize, place))
        }
        Body::Code(instr, fixup) => code(section, uses, number, line, encode(instr), fixup),
        Body::Empty
        | Body::Text
        | Body::DataSection
        | Body::At(_)
        | Body::Global(_)
        | Body::Set { .. } => Ok(()),
    }
}

/// Appends a statement's body that is handed over to its section: a list of bytes that begins the section isn't copied.
pub(crate) fn consume_body(
    section: &mut Growing,
    uses: &mut Vec<Reloc>,
    number: u32,
    line: u32,
    body: Body,
) -> Result<(), AllocError>
    requires formed { IsFormedBody body }
    requires room { HasRoom (with_bytes section.old
        (waiting_bytes (origin section.old.place + length section.old.bytes) body)) }
    ensures bytes { OnOk result (section.new ≡ with_bytes section.old
        (waiting_bytes (origin section.old.place + length section.old.bytes) body)) }
    ensures uses { OnOk result (uses.new.items
        ≡ uses.old.items ++ uses_in_body number (length section.old.bytes) line body) }
{
    match body {
        Body::Byte(bytes) => section.push_list(bytes.into_items()),
        other => fill(section, uses, number, line, &other),
    }
}
