//! The parts of a trace's lines. Each call appends to a text, and where memory runs out, some of the part may be in it.

ghost use Rattle.std.specs.Prelude.{◌≡◌, ◌%◌, ◌<◌, ◌≤◌, ◌++◌, OnOk, codes, decimal, drop, if◌then◌else◌, length, ◌∷◌, []};
ghost use Rattle.m88_base.specs.Hex.{hex8, hex_digit};
ghost use Rattle.m88_base.specs.Lines.{line_end};
ghost use Rattle.m88_isa.specs.Memory.{IsWordAccess};
ghost use Rattle.m88_trace.specs.Lines.{access_head, head_text, output_text, written_text};

use itoa::write_digits;
use m88_base::{Reg, push_hex2, word_digits};
use m88_isa::Access;
use std::alloc::AllocError;

/// The digits, the lowest first.
const DIGITS: [u8; 16] = *b"0123456789ABCDEF";

/// The last digit of a number.
fn last_digit(n: u32) -> u8
    ensures { result ≡ hex_digit (n % 16) }
{
    DIGITS[(n % 16) as usize]
}

/// Appends a space and a word in eight digits, at once.
fn push_word(text: &mut Vec<u8>, n: u32) -> Result<(), AllocError>
    ensures { OnOk result (text.new.items ≡ text.old.items ++ codes " " ++ hex8 n) }
{
    let [a, b, c, d, e, f, g, h] = word_digits(n);
    text.extend_from_slice(&[b' ', a, b, c, d, e, f, g, h])
}

/// Appends a number in decimal and what stands behind it, at once. In front of that stands room for the number.
fn push_numbered(text: &mut Vec<u8>, number: u32, line: &mut [u8]) -> Result<(), AllocError>
    requires { 10 ≤ length line.old }
    ensures { OnOk result (text.new.items
        ≡ text.old.items ++ (decimal number ++ drop 10 line.old)) }
{
    let start = write_digits(u64::from(number), line, 10);
    text.extend_from_slice(&line[start..])
}

/// Appends the number of a step, and the address and the word of its instruction, at once.
#[tactic(auto, unfolding(crate::specs::Lines::head_text))]
pub(crate) fn push_head(
    text: &mut Vec<u8>,
    number: u32,
    at: u32,
    word: u32,
) -> Result<(), AllocError>
    ensures { OnOk result (text.new.items ≡ text.old.items ++ head_text number at word) }
{
    let [a, b, c, d, e, f, g, h] = word_digits(at);
    let [i, j, k, l, m, n, o, p] = word_digits(word);
    let mut line = [
        0, 0, 0, 0, 0, 0, 0, 0, 0, 0, // the room for the number
        b' ', a, b, c, d, e, f, g, h, b' ', i, j, k, l, m, n, o, p,
    ];
    push_numbered(text, number, &mut line)
}

/// Appends a line without accesses, at once.
#[tactic(auto, unfolding(crate::specs::Lines::head_text, crate::specs::Lines::written_text))]
pub(crate) fn push_line(
    text: &mut Vec<u8>,
    number: u32,
    at: u32,
    word: u32,
    written: Option<(Reg, u32)>,
) -> Result<(), AllocError>
    ensures { OnOk result (text.new.items
        ≡ text.old.items ++ (head_text number at word ++ written_text written ++ line_end)) }
{
    let [a, b, c, d, e, f, g, h] = word_digits(at);
    let [i, j, k, l, m, n, o, p] = word_digits(word);
    let Some((register, value)) = written else {
        let mut line = [
            0, 0, 0, 0, 0, 0, 0, 0, 0, 0, b' ', a, b, c, d, e, f, g, h, b' ', i, j, k, l, m, n, o,
            p, b'\n',
        ];
        return push_numbered(text, number, &mut line);
    };
    let [q, r, s, t, u, v, w, x] = word_digits(value);
    let register = register.number();
    if register < 10 {
        let digit = last_digit(register);
        let mut line = [
            0, 0, 0, 0, 0, 0, 0, 0, 0, 0, b' ', a, b, c, d, e, f, g, h, b' ', i, j, k, l, m, n, o,
            p, b' ', b'r', digit, b' ', q, r, s, t, u, v, w, x, b'\n',
        ];
        return push_numbered(text, number, &mut line);
    }
    let tens = last_digit(register / 10);
    let ones = last_digit(register % 10);
    let mut line = [
        0, 0, 0, 0, 0, 0, 0, 0, 0, 0, b' ', a, b, c, d, e, f, g, h, b' ', i, j, k, l, m, n, o, p,
        b' ', b'r', tens, ones, b' ', q, r, s, t, u, v, w, x, b'\n',
    ];
    push_numbered(text, number, &mut line)
}

/// Appends a register that is written at once, and its new value.
#[tactic(auto, unfolding(crate::specs::Lines::written_text))]
pub(crate) fn push_written(
    text: &mut Vec<u8>,
    written: Option<(Reg, u32)>,
) -> Result<(), AllocError>
    ensures { OnOk result (text.new.items ≡ text.old.items ++ written_text written) }
{
    let Some((register, value)) = written else {
        return Ok(());
    };
    push_register(text, register.number())?;
    push_word(text, value)
}

/// Appends the name of a register behind a space, at once.
fn push_register(text: &mut Vec<u8>, number: u32) -> Result<(), AllocError>
    requires { number < 32 }
    ensures { OnOk result (text.new.items ≡ text.old.items ++ codes " r" ++ decimal number) }
{
    if number < 10 {
        return text.extend_from_slice(&[b' ', b'r', last_digit(number)]);
    }
    text.extend_from_slice(&[b' ', b'r', last_digit(number / 10), last_digit(number % 10)])
}

/// The letter that says whether an access loads or stores.
fn kind_of(access: &Access) -> u8
    ensures { 32 ∷ result ∷ 32 ∷ [] ≡ (if access.now.write then codes " s " else codes " l ") }
{
    if access.write { b's' } else { b'l' }
}

/// The bytes of an access up to its datum.
const HEAD: usize = 14;

/// An access whose datum isn't known yet.
#[tactic(auto, unfolding(crate::specs::Lines::access_head))]
fn open_access(access: &Access) -> [u8; HEAD + 8]
    requires { IsWordAccess access.now }
    ensures { result ≡ access_head access.now ++ codes "????????" }
{
    let kind = kind_of(access);
    let [a, b, c, d, e, f, g, h] = word_digits(access.addr);
    let en = last_digit(u32::from(access.en));
    [
        b' ', kind, b' ', a, b, c, d, e, f, g, h, b' ', en, b' ', b'?', b'?', b'?', b'?', b'?',
        b'?', b'?', b'?',
    ]
}

/// Appends an access up to its datum.
pub(crate) fn push_access(text: &mut Vec<u8>, access: &Access) -> Result<(), AllocError>
    requires { IsWordAccess access.now }
    ensures { OnOk result (text.new.items ≡ text.old.items ++ access_head access.now) }
{
    text.extend_from_slice(&open_access(access)[..HEAD])
}

/// Appends an access whose datum isn't known yet, with question marks for its digits.
pub(crate) fn push_open(text: &mut Vec<u8>, access: &Access) -> Result<(), AllocError>
    requires { IsWordAccess access.now }
    ensures { OnOk result (text.new.items
        ≡ text.old.items ++ (access_head access.now ++ codes "????????")) }
{
    text.extend_from_slice(&open_access(access))
}

/// Appends a line up to its first access, whose datum isn't known yet. Few lines have both a register and an access.
#[tactic(auto, unfolding(crate::specs::Lines::written_text))]
pub(crate) fn push_begun(
    text: &mut Vec<u8>,
    number: u32,
    at: u32,
    word: u32,
    written: Option<(Reg, u32)>,
    access: &Access,
) -> Result<(), AllocError>
    requires { IsWordAccess access.now }
    ensures { OnOk result (text.new.items ≡ text.old.items ++ (head_text number at word
        ++ written_text written ++ (access_head access.now ++ codes "????????"))) }
{
    let None = written else {
        push_head(text, number, at, word)?;
        push_written(text, written)?;
        return push_open(text, access);
    };
    let [a, b, c, d, e, f, g, h] = word_digits(at);
    let [i, j, k, l, m, n, o, p] = word_digits(word);
    let kind = kind_of(access);
    let [q, r, s, t, u, v, w, x] = word_digits(access.addr);
    let en = last_digit(u32::from(access.en));
    let mut line = [
        0, 0, 0, 0, 0, 0, 0, 0, 0, 0, b' ', a, b, c, d, e, f, g, h, b' ', i, j, k, l, m, n, o, p,
        b' ', kind, b' ', q, r, s, t, u, v, w, x, b' ', en, b' ', b'?', b'?', b'?', b'?', b'?',
        b'?', b'?', b'?',
    ];
    push_numbered(text, number, &mut line)
}

/// Appends a byte that is put out.
#[tactic(auto, unfolding(crate::specs::Lines::output_text))]
pub(crate) fn push_output(text: &mut Vec<u8>, byte: u8) -> Result<(), AllocError>
    ensures { OnOk result (text.new.items ≡ text.old.items ++ output_text byte) }
{
    text.extend_from_slice(b" o ")?;
    push_hex2(text, byte)
}

/// Ends a line.
pub(crate) fn push_line_end(text: &mut Vec<u8>) -> Result<(), AllocError>
    ensures { OnOk result (text.new.items ≡ text.old.items ++ line_end) }
{
    text.push(b'\n')?;
    Ok(())
}
