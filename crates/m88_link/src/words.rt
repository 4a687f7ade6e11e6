//! Words of a line of an object text, each read up to its blank.
ghost use Rattle.std.specs.Prelude.{◌≡◌, None, Some, MatchOption};
ghost use Rattle.m88_link.specs.Inside.Rows.{hex8_word, field_kind_of, kind_word_of, name_written, name_word, decimal_value, number_word, scope_of, scope_word, symbol_section_of, section_word_of};

use m88_base::{Kind, Name, decimal_in, hex8_of, split_at_byte};

/// The name that the bytes are.
pub fn name_of(text: &[u8]) -> Option<Name>
    ensures { result ≡ name_written text.now }
{
    Name::new(text)
}

/// The number below 2^32 that decimal digits write.
pub fn number_of(text: &[u8]) -> Option<u32>
    ensures { result ≡ decimal_value text.now }
{
    decimal_in(text, u32::MAX)
}

/// Whether a symbol is global: `g`, or `l` for one that isn't.
fn scope_of(text: &[u8]) -> Option<bool>
    ensures { result ≡ scope_of text.now }
{
    match text {
        b"g" => Some(true),
        b"l" => Some(false),
        _ => None,
    }
}

/// The section of a symbol: a number, or `abs` where it has none.
fn section_of(text: &[u8]) -> Option<Option<u32>>
    ensures { result ≡ symbol_section_of text.now }
{
    match text {
        b"abs" => Some(None),
        _ => Some(Some(number_of(text)?)),
    }
}

/// The kind of a field.
fn kind_of(text: &[u8]) -> Option<Kind>
    ensures { result ≡ field_kind_of text.now }
{
    match text {
        b"hi16" => Some(Kind::Hi16),
        b"lo16" => Some(Kind::Lo16),
        b"pc26" => Some(Kind::Pc26),
        b"pc16" => Some(Kind::Pc16),
        b"abs32" => Some(Kind::Abs32),
        _ => None,
    }
}

/// A name and what stands behind its blank.
#[tactic(auto, unfolding(crate::specs::Inside::Rows::name_word))]
pub fn name_word(text: &[u8]) -> Option<(Name, &[u8])>
    ensures { MatchOption result (name_word text.now ≡ None)
        (λ p. name_word text.now ≡ Some (p.0, p.1.now)) }
{
    let (word, rest) = split_at_byte(b' ', text)?;
    Some((name_of(word)?, rest))
}

/// A number of eight digits and what stands behind its blank.
#[tactic(auto, unfolding(crate::specs::Inside::Rows::hex8_word))]
pub fn hex8_word(text: &[u8]) -> Option<(u32, &[u8])>
    ensures { MatchOption result (hex8_word text.now ≡ None)
        (λ p. hex8_word text.now ≡ Some (p.0, p.1.now)) }
{
    let (word, rest) = split_at_byte(b' ', text)?;
    Some((hex8_of(word)?, rest))
}

/// A decimal number and what stands behind its blank.
#[tactic(auto, unfolding(crate::specs::Inside::Rows::number_word))]
pub fn number_word(text: &[u8]) -> Option<(u32, &[u8])>
    ensures { MatchOption result (number_word text.now ≡ None)
        (λ p. number_word text.now ≡ Some (p.0, p.1.now)) }
{
    let (word, rest) = split_at_byte(b' ', text)?;
    Some((number_of(word)?, rest))
}

/// Whether a symbol is global, and what stands behind the word's blank.
#[tactic(auto, unfolding(crate::specs::Inside::Rows::scope_word))]
pub fn scope_word(text: &[u8]) -> Option<(bool, &[u8])>
    ensures { MatchOption result (scope_word text.now ≡ None)
        (λ p. scope_word text.now ≡ Some (p.0, p.1.now)) }
{
    let (word, rest) = split_at_byte(b' ', text)?;
    Some((scope_of(word)?, rest))
}

/// The section of a symbol and what stands behind the word's blank.
#[tactic(auto, unfolding(crate::specs::Inside::Rows::section_word_of))]
pub fn section_word_of(text: &[u8]) -> Option<(Option<u32>, &[u8])>
    ensures { MatchOption result (section_word_of text.now ≡ None)
        (λ p. section_word_of text.now ≡ Some (p.0, p.1.now)) }
{
    let (word, rest) = split_at_byte(b' ', text)?;
    Some((section_of(word)?, rest))
}

/// The kind of a field and what stands behind the word's blank.
#[tactic(auto, unfolding(crate::specs::Inside::Rows::kind_word_of))]
pub fn kind_word_of(text: &[u8]) -> Option<(Kind, &[u8])>
    ensures { MatchOption result (kind_word_of text.now ≡ None)
        (λ p. kind_word_of text.now ≡ Some (p.0, p.1.now)) }
{
    let (word, rest) = split_at_byte(b' ', text)?;
    Some((kind_of(word)?, rest))
}
