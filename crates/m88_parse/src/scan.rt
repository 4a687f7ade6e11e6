//! The front of the rest of a line: a blank, a comment, a token, or why it is none.
ghost use Rattle.std.specs.Prelude.{◌≡◌, ◌+◌, ◌<◌, ◌≤◌, false, ◌∷◌, take, length, Err, IfOk, IfErr, MatchResult, if◌then◌else◌};
ghost use Rattle.std.specs.List.{prefix_len};
ghost use Rattle.std.specs.Char.{digit_value};
ghost use Rattle.std.specs.Str.Parse.{digits_value};
ghost use Rattle.m88_parse.specs.Inside.Tokens.{bounded, numeral, begins_escape, closes, inside_len, holds_escapes, character, cut_of, quoted, word_front, front};
ghost use Rattle.m88_parse.specs.Language.Bytes.{is_blank, is_comment, is_plain, is_mark, is_escape, escape_value, are_digits};
ghost use Rattle.m88_parse.specs.declared.fault.ParseKind.TheVariants.{Syntax};
ghost use Rattle.m88_base.specs.Name.{continues_name};

use crate::fault::ParseKind;
use crate::token::Kept;
use m88_base::{continues_name, digit_value};

/// The most bytes that a name may have.
const MAX_NAME: usize = 64;

/// The front of the rest of a line: how many bytes it takes, and what is kept of them where they are
/// a token.
#[derive(Clone, Copy)]
pub(crate) struct Cut {
    pub len: usize,
    pub kept: Option<Kept>,
}

/// Why nothing can be cut off: the place in the rest of the line, from 0, and the kind.
#[derive(Clone, Copy)]
pub(crate) struct Flaw {
    pub at: usize,
    pub kind: ParseKind,
}

/// A space or a tab.
fn is_blank(b: u8) -> bool
    ensures { result ≡ is_blank b }
{
    matches!(b, b' ' | b'\t')
}

/// `;` or `#`, behind which the rest of the line is a comment.
fn is_comment(b: u8) -> bool
    ensures { result ≡ is_comment b }
{
    matches!(b, b';' | b'#')
}

/// A byte that may stand outside comments: 32 to 126 or a tab.
fn is_plain(b: u8) -> bool
    ensures { result ≡ is_plain b }
{
    matches!(b, b' '..=b'~' | b'\t')
}

/// One of the marks `,` `:` `[` `]` `<` `>` `(` `)` `+` `-`.
fn is_mark(b: u8) -> bool
    ensures { result ≡ is_mark b }
{
    matches!(
        b,
        b',' | b':' | b'[' | b']' | b'<' | b'>' | b'(' | b')' | b'+' | b'-'
    )
}

/// A byte that may stand behind a backslash: `n` `t` `0` `\` `"` or `'`.
fn is_escape(b: u8) -> bool
    ensures { result ≡ is_escape b }
{
    matches!(b, b'n' | b't' | b'0' | b'\\' | b'"' | b'\'')
}

/// The byte that an escape stands for, from the byte behind its backslash.
pub(crate) fn escape_value(b: u8) -> u8
    ensures { result ≡ escape_value b }
{
    match b {
        b'n' => b'\n',
        b't' => b'\t',
        b'0' => 0,
        _ => b,
    }
}

/// Whether a byte is a backslash that takes the next one with it.
pub(crate) fn begins_escape(escaped: bool, b: u8) -> bool
    ensures { result ≡ begins_escape escaped b }
{
    !escaped && b == b'\\'
}

/// Whether a byte is the closing quote.
fn closes(quote: u8, escaped: bool, b: u8) -> bool
    ensures { result ≡ closes quote escaped b }
{
    !escaped && b == quote
}

/// The value of digits in a base, where it is below 2^32. A byte that is no digit of the base is told before a value
/// that is too great, wherever it stands.
fn value_of(base: u64, digits: &[u8]) -> Result<u32, ParseKind>
    requires least { 0 < base }
    requires most { base ≤ 16 }
    ensures value { result
        ≡ (if are_digits base digits.now then bounded (digits_value base digits.now) else Err Syntax) }
{
    const LIMIT: u64 = 1 << 32;
    let mut value: u64 = 0;
    for d in digits {
        let digit = u64::from(digit_value(*d));
        if digit >= base {
            return Err(ParseKind::Syntax);
        }
        // A value that is too great doesn't end the pass: a byte that is no digit may stand behind.
        value = (value * base + digit).min(LIMIT);
    }
    if value < LIMIT {
        Ok(value as u32)
    } else {
        Err(ParseKind::OutOfRange)
    }
}

/// The number of a run that begins with a digit: 0x and hexadecimal digits, or decimal digits without a needless 0 in
/// front.
fn numeral(run: &[u8]) -> Result<u32, ParseKind>
    ensures value { result ≡ numeral run.now }
{
    match run {
        [b'0', b'x', _, ..] => value_of(16, &run[2..]),
        [b'0', _, ..] => Err(ParseKind::Syntax),
        _ => value_of(10, run),
    }
}

/// How many bytes stand before the closing quote, or before the end where there is none.
fn inside_len(quote: u8, bytes: &[u8]) -> usize
    ensures value { result ≡ inside_len quote false bytes.now }
    ensures bound { result ≤ length bytes.now }
{
    let mut escaped = false;
    for (i, b) in bytes.iter().enumerate() {
        if closes(quote, escaped, *b) {
            return i;
        }
        escaped = begins_escape(escaped, *b);
    }
    bytes.len()
}

/// Whether each backslash begins an escape.
fn holds_escapes(inside: &[u8]) -> bool
    ensures { result ≡ holds_escapes false inside.now }
{
    let mut escaped = false;
    for b in inside {
        if escaped && !is_escape(*b) {
            return false;
        }
        escaped = begins_escape(escaped, *b);
    }
    !escaped
}

/// What a character stands for, which is exactly one byte or escape.
fn character(inside: &[u8]) -> Option<u8>
    ensures { result ≡ character inside.now }
{
    match inside {
        [b] => Some(*b),
        [b'\\', e] if is_escape(*e) => Some(escape_value(*e)),
        _ => None,
    }
}

/// How many bytes at the front may stand outside comments.
fn plain_len(bytes: &[u8]) -> usize
    ensures { result ≡ prefix_len is_plain bytes.now }
{
    bytes.iter().take_while(|b| is_plain(**b)).count()
}

/// How many bytes at the front are those of a name.
fn word_len(bytes: &[u8]) -> usize
    ensures { result ≡ prefix_len continues_name bytes.now }
{
    bytes.iter().take_while(|b| continues_name(**b)).count()
}

/// The character or text behind an opening quote.
#[tactic(auto, using(crate::proofs::FrontBytes::between_quotes), unfolding(crate::specs::Inside::Tokens::quoted))]
fn quoted(quote: u8, bytes: &[u8]) -> Result<Cut, Flaw>
    ensures value { MatchResult result
        (λ c. quoted quote bytes.now ≡ Ok (cut_of (take c.len (quote ∷ bytes.now)) c))
        (λ f. quoted quote bytes.now ≡ Err f) }
    ensures bound { IfOk result (λ c. (0 < c.len) × (c.len ≤ length bytes.now + 1)) }
    ensures place { IfErr result (λ f. f.at ≤ length bytes.now) }
{
    let len = inside_len(quote, bytes);
    let inside = &bytes[..len];
    let plain = plain_len(inside);
    if plain < len {
        return Err(Flaw {
            at: plain + 1,
            kind: ParseKind::NotAscii,
        });
    }
    let kept = if len == bytes.len() {
        None
    } else if quote == b'\'' {
        character(inside).map(|b| Kept::Number(b as u32))
    } else if holds_escapes(inside) {
        Some(Kept::Text)
    } else {
        None
    };
    match kept {
        Some(_) => Ok(Cut { len: len + 2, kept }),
        None => Err(Flaw {
            at: 0,
            kind: ParseKind::Syntax,
        }),
    }
}

/// The name or number at the front, where the first byte is one of a word.
fn word(first: u8, run: &[u8]) -> Result<Cut, Flaw>
    ensures value { MatchResult result (λ c. word_front first run.now ≡ Ok (cut_of run.now c))
        (λ f. word_front first run.now ≡ Err f) }
    ensures length { IfOk result (λ c. c.len ≡ length run.now) }
    ensures place { IfErr result (λ f. f.at ≡ 0) }
{
    let len = run.len();
    if first.is_ascii_digit() {
        match numeral(run) {
            Ok(n) => Ok(Cut {
                len,
                kept: Some(Kept::Number(n)),
            }),
            Err(kind) => Err(Flaw { at: 0, kind }),
        }
    } else if len > MAX_NAME {
        Err(Flaw {
            at: 0,
            kind: ParseKind::OutOfRange,
        })
    } else {
        Ok(Cut {
            len,
            kept: Some(Kept::Name),
        })
    }
}

/// The front of the rest of a line: a token, a blank, or a comment to the end.
#[tactic(auto, using(crate::proofs::FrontBytes::run_taken), unfolding(crate::specs::Inside::Tokens::front))]
pub(crate) fn front(bytes: &[u8]) -> Result<Cut, Flaw>
    requires { 0 < length bytes.now }
    ensures value { MatchResult result (λ c. front bytes.now ≡ Ok (cut_of (take c.len bytes.now) c))
        (λ f. front bytes.now ≡ Err f) }
    ensures bound { IfOk result (λ c. (0 < c.len) × (c.len ≤ length bytes.now)) }
    ensures place { IfErr result (λ f. f.at < length bytes.now) }
{
    let first = bytes[0];
    // What stands most often is tried first: no byte is of two of these kinds.
    if continues_name(first) {
        word(first, &bytes[..word_len(bytes)])
    } else if is_blank(first) {
        Ok(Cut { len: 1, kept: None })
    } else if is_mark(first) {
        Ok(Cut {
            len: 1,
            kept: Some(Kept::Mark(first)),
        })
    } else if is_comment(first) {
        Ok(Cut {
            len: bytes.len(),
            kept: None,
        })
    } else if !is_plain(first) {
        Err(Flaw {
            at: 0,
            kind: ParseKind::NotAscii,
        })
    } else if matches!(first, b'"' | b'\'') {
        quoted(first, &bytes[1..])
    } else {
        Err(Flaw {
            at: 0,
            kind: ParseKind::Syntax,
        })
    }
}
