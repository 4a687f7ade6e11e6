//! Lines of an object text that give no bytes, read.
ghost use Rattle.std.specs.Prelude.{◌≡◌, ◌*◌, ◌+◌, ◌<◌, IfSome};
ghost use Rattle.m88_link.specs.Inside.Drafts.{TakesOrRefuses};
ghost use Rattle.m88_link.specs.Inside.Rows.{at_of, byte_by_digits, bytes_behind, head_of, hex_value, reloc_in, keyword_of, row_by, row_in, symbol_in};

use crate::object::{Place, Reloc, Symbol};
use crate::row::{Keyword, Row, SectionHead};
use crate::words::{
    hex8_word, kind_word_of, name_of, name_word, number_of, number_word, scope_word,
    section_word_of,
};
use m88_base::split_at_byte;
use std::alloc::AllocError;

/// A section's length and line.
#[tactic(auto, unfolding(crate::specs::Inside::Rows::head_of))]
fn head_of(place: Place, text: &[u8]) -> Option<SectionHead>
    ensures { result ≡ head_of place text.now }
{
    let (len, rest) = hex8_word(text)?;
    let line = number_of(rest)?;
    Some(SectionHead { place, len, line })
}

/// A section's address, length and line.
#[tactic(auto, unfolding(crate::specs::Inside::Rows::at_of))]
fn at_of(text: &[u8]) -> Option<SectionHead>
    ensures { result ≡ at_of text.now }
{
    let (at, rest) = hex8_word(text)?;
    head_of(Place::At(at), rest)
}

/// A symbol: its name, whether it is global, its section, value, line and column.
#[tactic(auto, unfolding(crate::specs::Inside::Rows::symbol_in))]
fn symbol_in(text: &[u8]) -> Option<Symbol>
    ensures { result ≡ symbol_in text.now }
{
    // No `?`: no proof is found for it where a name comes with a slice.
    let Some((name, rest)) = name_word(text) else {
        return None;
    };
    let (global, rest) = scope_word(rest)?;
    let (section, rest) = section_word_of(rest)?;
    let (value, rest) = hex8_word(rest)?;
    let (line, rest) = number_word(rest)?;
    let col = number_of(rest)?;
    Some(Symbol {
        name,
        global,
        section,
        value,
        line,
        col,
    })
}

/// A relocation: its kind, section, offset, symbol, addend, line and column.
#[tactic(auto, unfolding(crate::specs::Inside::Rows::reloc_in))]
fn reloc_in(text: &[u8]) -> Option<Reloc>
    ensures { result ≡ reloc_in text.now }
{
    let (kind, rest) = kind_word_of(text)?;
    let (section, rest) = number_word(rest)?;
    let (offset, rest) = hex8_word(rest)?;
    // No `?`: no proof is found for it where a name comes with a slice.
    let Some((symbol, rest)) = name_word(rest) else {
        return None;
    };
    let (addend, rest) = hex8_word(rest)?;
    let (line, rest) = number_word(rest)?;
    let col = number_of(rest)?;
    Some(Reloc {
        kind,
        section,
        offset,
        symbol,
        addend,
        line,
        col,
    })
}

/// The word that begins a line that gives no bytes.
fn keyword_of(word: &[u8]) -> Option<Keyword>
    ensures { result ≡ keyword_of word.now }
{
    // Two words by `==`: a pattern of six bytes would need a proof by hand.
    if word == b"object".as_slice() {
        return Some(Keyword::Object);
    }
    if word == b"symbol".as_slice() {
        return Some(Keyword::Symbol);
    }
    match word {
        b"text" => Some(Keyword::Text),
        b"data" => Some(Keyword::Data),
        b"at" => Some(Keyword::At),
        b"reloc" => Some(Keyword::Reloc),
        _ => None,
    }
}

/// What stands behind the first word, by that word.
fn row_by(keyword: Keyword, rest: &[u8]) -> Option<Row>
    ensures { result ≡ row_by keyword rest.now }
{
    match keyword {
        Keyword::Object => Some(Row::Begin(name_of(rest)?)),
        Keyword::Text => Some(Row::Head(head_of(Place::Text, rest)?)),
        Keyword::Data => Some(Row::Head(head_of(Place::DataSection, rest)?)),
        Keyword::At => Some(Row::Head(at_of(rest)?)),
        Keyword::Symbol => Some(Row::Define(symbol_in(rest)?)),
        Keyword::Reloc => Some(Row::Patch(reloc_in(rest)?)),
    }
}

/// What a line says that gives no bytes.
#[tactic(auto, unfolding(crate::specs::Inside::Rows::row_in))]
pub fn row_of(line: &[u8]) -> Option<Row>
    ensures { result ≡ row_in line.now }
{
    if line == b"end".as_slice() {
        return Some(Row::End);
    }
    let (word, rest) = split_at_byte(b' ', line)?;
    let keyword = keyword_of(word)?;
    row_by(keyword, rest)
}

/// The value of an upper-case hexadecimal digit.
fn hex_value(digit: u8) -> Option<u8>
    ensures value { result ≡ hex_value digit }
    ensures bound { IfSome result (λ n. n < 16) }
{
    match digit {
        b'0'..=b'9' => Some(digit - b'0'),
        b'A'..=b'F' => Some(digit - b'A' + 10),
        _ => None,
    }
}

/// The byte that two digits write.
#[tactic(auto, unfolding(crate::specs::Inside::Rows::byte_by_digits))]
fn byte_of(high: u8, low: u8) -> Option<u8>
    ensures { result ≡ byte_by_digits high low }
{
    let high = hex_value(high)?;
    let low = hex_value(low)?;
    Some(high * 16 + low)
}

/// Appends the bytes that digits write, two for each; `false` where they write none.
pub fn push_bytes(bytes: &mut Vec<u8>, digits: &[u8]) -> Result<bool, AllocError>
    ensures { TakesOrRefuses result bytes.new.items (bytes_behind bytes.old.items digits.now) }
{
    let mut rest = digits;
    while let [high, low, left @ ..] = rest {
        let Some(byte) = byte_of(*high, *low) else {
            return Ok(false);
        };
        bytes.push(byte)?;
        rest = left;
    }
    Ok(rest.is_empty())
}
