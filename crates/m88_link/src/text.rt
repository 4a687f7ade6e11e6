//! The text of objects.
ghost use Rattle.std.specs.Prelude.{◌≡◌, ◌++◌, ◌<◌, ◌^◌, All, IfOk, IfSome, OnOk, flat_map, length};
ghost use Rattle.std.specs.List.{AllByRecursion};
ghost use Rattle.m88_base.specs.Name.{IsName};
ghost use Rattle.m88_link.specs.ObjectRead.{HasRelocText, HasSectionText, HasSymbolText, HasText, IsSoundText};
ghost use Rattle.m88_link.specs.ObjectText.{byte_line, byte_lines, field_words, kind_word, object_line, object_lines, objects_text, place_words, reloc_line, section_lines, section_word, source_words, symbol_line, target_words};
ghost use Rattle.m88_link.specs.Sound.{HasRoom, IsSound, origin};

use crate::object::{Object, Place, Reloc, Section, Symbol};
use m88_base::{Kind, Name, NoMemory, push_decimal, push_hex2, push_hex8};
use std::alloc::{AllocError, Global};

/// The most bytes of a byte line.
pub(crate) const LINE_BYTES: usize = 32;

/// The text of objects: for each a line `object NAME`, its sections with their bytes, its symbols in
/// order of definition, its relocations, and a line `end`.
pub fn object_text(alloc: Global, objects: &[Object]) -> Result<Vec<u8>, NoMemory>
    requires { All IsSound objects.now }
    ensures text { IfOk result (λ text. text.items ≡ objects_text objects.now) }

    // Reading the text of one or more objects again gives the objects.
    ensures again { IfOk result (λ text. 0 < length objects.now
        → IsSoundText objects.now text.items) }
{
    let text = written(alloc, objects)?;
    Ok(text)
}

/// The text, or that there is no memory for it.
fn written(alloc: Global, objects: &[Object]) -> Result<Vec<u8>, AllocError>
    requires { All IsSound objects.now }
    ensures text { IfOk result (λ text. text.items ≡ objects_text objects.now) }
    ensures have { OnOk result (All HasText objects.now) }
{
    let mut text = Vec::new(alloc);
    for object in objects {
        push_object(&mut text, object)?;
    }
    Ok(text)
}

/// Appends the lines of an object.
fn push_object(text: &mut Vec<u8>, object: &Object) -> Result<(), AllocError>
    requires { IsSound object.now }
    ensures text { OnOk result (text.new.items ≡ text.old.items ++ object_lines object.now) }
    ensures has { OnOk result (HasText object.now) }
{
    push_name(text, object.name)?;
    push_sections(text, object.sections.as_slice())?;
    push_symbols(text, object.symbols.as_slice())?;
    push_relocs(text, object.relocs.as_slice())?;
    text.extend_from_slice(b"end\n")?;
    Ok(())
}

/// Appends the line that begins an object.
fn push_name(text: &mut Vec<u8>, name: Name) -> Result<(), AllocError>
    ensures text { OnOk result (text.new.items ≡ text.old.items ++ object_line name) }
    ensures name { OnOk result (IsName name) }
{
    text.extend_from_slice(b"object ")?;
    text.extend_from_slice(name.bytes())?;
    text.push(b'\n')?;
    Ok(())
}

/// Appends the lines of sections.
fn push_sections(text: &mut Vec<u8>, sections: &[Section]) -> Result<(), AllocError>
    requires { All HasRoom sections.now }
    ensures text { OnOk result (text.new.items ≡ text.old.items
        ++ flat_map section_lines sections.now) }
    ensures have { OnOk result (All HasSectionText sections.now) }
{
    for section in sections {
        push_section(text, section)?;
    }
    Ok(())
}

/// Appends the lines of a section.
fn push_section(text: &mut Vec<u8>, section: &Section) -> Result<(), AllocError>
    requires { HasRoom section.now }
    ensures text { OnOk result (text.new.items ≡ text.old.items ++ section_lines section.now) }
    ensures has { OnOk result (HasSectionText section.now) }
{
    let bytes = section.bytes.as_slice();
    push_place(text, section.place, bytes.len() as u32)?;
    text.push(b' ')?;
    push_decimal(text, u64::from(section.line))?;
    text.push(b'\n')?;
    push_byte_lines(text, bytes)
}

/// Appends the words for a section's place and its length.
fn push_place(text: &mut Vec<u8>, place: Place, len: u32) -> Result<(), AllocError>
    ensures text { OnOk result (text.new.items ≡ text.old.items ++ place_words place len) }
    ensures address { OnOk result (origin place < 2 ^ 32) }
{
    match place {
        Place::Text => {
            text.extend_from_slice(b"text ")?;
            push_hex8(text, len)
        }
        Place::DataSection => {
            text.extend_from_slice(b"data ")?;
            push_hex8(text, len)
        }
        Place::At(at) => {
            text.extend_from_slice(b"at ")?;
            push_hex8(text, at)?;
            text.push(b' ')?;
            push_hex8(text, len)
        }
    }
}

/// Appends the byte lines of a section.
fn push_byte_lines(text: &mut Vec<u8>, bytes: &[u8]) -> Result<(), AllocError>
    ensures text { OnOk result (text.new.items ≡ text.old.items ++ byte_lines bytes.now) }
    ensures bytes { AllByRecursion (λ b. b < 2 ^ 8) bytes.now }
{
    for line in bytes.chunks(LINE_BYTES) {
        push_byte_line(text, line)?;
    }
    Ok(())
}

/// Appends a line with bytes.
fn push_byte_line(text: &mut Vec<u8>, bytes: &[u8]) -> Result<(), AllocError>
    ensures { OnOk result (text.new.items ≡ text.old.items ++ byte_line bytes.now) }
{
    text.push(b'=')?;
    for byte in bytes {
        push_hex2(text, *byte)?;
    }
    text.push(b'\n')?;
    Ok(())
}

/// Appends the lines of symbols.
fn push_symbols(text: &mut Vec<u8>, symbols: &[Symbol]) -> Result<(), AllocError>
    ensures text { OnOk result (text.new.items ≡ text.old.items
        ++ flat_map symbol_line symbols.now) }
    ensures have { OnOk result (All HasSymbolText symbols.now) }
{
    for symbol in symbols {
        push_symbol(text, symbol)?;
    }
    Ok(())
}

/// Appends the line of a symbol.
fn push_symbol(text: &mut Vec<u8>, symbol: &Symbol) -> Result<(), AllocError>
    ensures text { OnOk result (text.new.items ≡ text.old.items ++ symbol_line symbol.now) }
    ensures has { OnOk result (HasSymbolText symbol.now) }
{
    text.extend_from_slice(b"symbol ")?;
    text.extend_from_slice(symbol.name.bytes())?;
    text.extend_from_slice(if symbol.global { b" g " } else { b" l " })?;
    push_section_word(text, symbol.section)?;
    text.push(b' ')?;
    push_hex8(text, symbol.value)?;
    push_source(text, symbol.line, symbol.col)
}

/// Appends the word for a symbol's section.
fn push_section_word(text: &mut Vec<u8>, section: Option<u32>) -> Result<(), AllocError>
    ensures text { OnOk result (text.new.items ≡ text.old.items ++ section_word section) }
    ensures number { OnOk result (IfSome section (λ k. k < 2 ^ 32)) }
{
    match section {
        Some(index) => push_decimal(text, u64::from(index)),
        None => text.extend_from_slice(b"abs"),
    }
}

/// Appends a line and a column of the source and the end of the line.
fn push_source(text: &mut Vec<u8>, line: u32, col: u32) -> Result<(), AllocError>
    ensures text { OnOk result (text.new.items ≡ text.old.items ++ source_words line col) }
    ensures line { line < 2 ^ 32 }
    ensures col { col < 2 ^ 32 }
{
    text.push(b' ')?;
    push_decimal(text, u64::from(line))?;
    text.push(b' ')?;
    push_decimal(text, u64::from(col))?;
    text.push(b'\n')?;
    Ok(())
}

/// Appends the lines of relocations.
fn push_relocs(text: &mut Vec<u8>, relocs: &[Reloc]) -> Result<(), AllocError>
    ensures text { OnOk result (text.new.items ≡ text.old.items ++ flat_map reloc_line relocs.now) }
    ensures have { OnOk result (All HasRelocText relocs.now) }
{
    for reloc in relocs {
        push_reloc(text, reloc)?;
    }
    Ok(())
}

/// Appends the line of a relocation.
fn push_reloc(text: &mut Vec<u8>, reloc: &Reloc) -> Result<(), AllocError>
    ensures text { OnOk result (text.new.items ≡ text.old.items ++ reloc_line reloc.now) }
    ensures has { OnOk result (HasRelocText reloc.now) }
{
    text.extend_from_slice(b"reloc ")?;
    push_field(text, reloc)?;
    text.push(b' ')?;
    push_target(text, reloc)?;
    push_source(text, reloc.line, reloc.col)
}

/// Appends the words for a relocation's field.
#[tactic(auto, unfolding(crate::specs::ObjectText::field_words))]
fn push_field(text: &mut Vec<u8>, reloc: &Reloc) -> Result<(), AllocError>
    ensures text { OnOk result (text.new.items ≡ text.old.items ++ field_words reloc.now) }
    ensures section { OnOk result (reloc.now.section < 2 ^ 32) }
    ensures offset { OnOk result (reloc.now.offset < 2 ^ 32) }
{
    text.extend_from_slice(kind_word(reloc.kind))?;
    text.push(b' ')?;
    push_decimal(text, u64::from(reloc.section))?;
    text.push(b' ')?;
    push_hex8(text, reloc.offset)
}

/// Appends the words for a relocation's target.
#[tactic(auto, unfolding(crate::specs::ObjectText::target_words))]
fn push_target(text: &mut Vec<u8>, reloc: &Reloc) -> Result<(), AllocError>
    ensures text { OnOk result (text.new.items ≡ text.old.items ++ target_words reloc.now) }
    ensures symbol { OnOk result (IsName reloc.now.symbol) }
    ensures addend { OnOk result (reloc.now.addend < 2 ^ 32) }
{
    text.extend_from_slice(reloc.symbol.bytes())?;
    text.push(b' ')?;
    push_hex8(text, reloc.addend)
}

/// The word for a kind of field.
fn kind_word(kind: Kind) -> &'static [u8]
    ensures { result.now ≡ kind_word kind }
{
    match kind {
        Kind::Hi16 => b"hi16",
        Kind::Lo16 => b"lo16",
        Kind::Pc26 => b"pc26",
        Kind::Pc16 => b"pc16",
        Kind::Abs32 => b"abs32",
    }
}
