//! Names of labels, symbols and modules.
ghost use Rattle.std.specs.Prelude.{◌≡◌, ◌↔◌, ◌-◌, ◌≤◌, ◌++◌, length, replicate, IsTrue, IsSome, IfSome};
ghost use Rattle.m88_base.specs.Name.{IsName, begins_name, continues_name};

use crate::digit::digit_value;
use std::fmt;
use std::hash::{Hash, Hasher};
use std::marker::Model;
use std::str::from_utf8;

/// A name of an assembly source, 1 to 64 bytes.
#[derive(Clone, Copy, Debug)]
pub struct Name {
    bytes: [u8; 64],
    len: u8,
}

impl Model for Name {
    ghost use Rattle.std.specs.Prelude.{ℕ, List, ◌≡◌, ◌-◌, ◌≤◌, ◌++◌, length, take, drop, replicate};
    ghost use Rattle.m88_base.specs.Name.{IsName};
    ghost use Rattle.std.proofs.Common.{ap, sym, ◌∙◌, arith, length-take-le, take-append-drop};

    ghost Value = { List ℕ };

    ghost view = { λ name. take name.len name.bytes };

    ghost invariant = { λ name. IsName (take name.len name.bytes)
        × (name.len ≤ 64) × (length name.bytes ≡ 64) × (drop name.len name.bytes ≡ replicate (64 - name.len) 0) };

    ghost inverse = { λ bytes. record { bytes = bytes ++ replicate (64 - length bytes) 0; len = length bytes } };

    ghost inverse_ok = { λ a h i.
        let len : length (take a.len a.bytes) ≡ a.len = length-take-le a.len a.bytes (omega (arith, h.1, h.2)) in
        let zeros = ap (λ n. take a.len a.bytes ++ replicate (64 - n) 0) len
        ∙ ap (λ behind. take a.len a.bytes ++ behind) (sym h.3) in
        record { bytes = (zeros ∙ take-append-drop a.len a.bytes) i; len = len i } };
}

impl PartialEq for Name {
    ghost use Rattle.std.specs.Prelude.{bytes_eq};
    ghost use Rattle.std.proofs.Common.{rules};
    ghost use Rattle.std.specs.Cmp.Rules.{comparing};

    ghost eq = { bytes_eq };

    ghost laws = { Prim.search (comparing, rules) };

    fn eq(&self, other: &Name) -> bool {
        self.bytes() == other.bytes()
    }
}

impl Eq for Name {
    ghost use Rattle.std.proofs.Common.{rules};
    ghost use Rattle.std.specs.Cmp.Rules.{comparing};

    ghost laws = { Prim.search (comparing, rules) };
}

impl Hash for Name {
    ghost use Rattle.std.specs.Prelude.{[], ◌∷◌};
    ghost use Rattle.std.specs.Cmp.Lexicographic.{bytes_decides};
    ghost use Rattle.std.proofs.Common.{ap};

    ghost hash_input = { λ name. name ∷ [] };

    ghost respects_eq = { λ x y same. ap (λ name. name ∷ []) ((bytes_decides x y).0 same) };

    // The bytes at once: a slice would hash each by itself.
    fn hash<H: Hasher>(&self, state: &mut H) {
        state.write(self.bytes());
    }
}

impl Name {
    /// The name that the bytes are, or None where they are none.
    pub fn new(bytes: &[u8]) -> Option<Name>
        ensures valid { IsSome result ↔ IsName bytes.now }
        ensures value { IfSome result (λ name. name ≡ bytes.now) }
    {
        if !is_name(bytes) {
            return None;
        }
        Some(Name {
            bytes: padded(bytes),
            len: bytes.len() as u8,
        })
    }

    /// The bytes of the name.
    pub fn bytes(&self) -> &[u8]
        ensures value { result.now ≡ self.now }
        ensures name { IsName self.now }
    {
        &self.bytes[..usize::from(self.len)]
    }

    /// The name as text; all its bytes are ASCII.
    pub fn text(&self) -> &str
        ensures { result.now ≡ self.now }
    {
        match from_utf8(self.bytes()) {
            Ok(text) => text,
            Err(_) => unreachable!(),
        }
    }
}

impl fmt::Display for Name {
    ghost use Rattle.std.specs.Prelude.{Some};

    ghost output = { λ name. Some name };

    fn fmt<W: fmt::Write>(&self, f: &mut fmt::Formatter<W>) -> fmt::Result {
        f.write_str(self.text())
    }
}

/// Whether bytes are one name.
fn is_name(bytes: &[u8]) -> bool
    ensures { IsTrue result ↔ IsName bytes.now }
{
    let Some((first, rest)) = bytes.split_first() else {
        return false;
    };
    if !begins_name(*first) {
        return false;
    }
    if rest.len() >= 64 {
        return false;
    }
    rest.iter().all(|byte| continues_name(*byte))
}

/// The bytes with zeros behind them.
fn padded(bytes: &[u8]) -> [u8; 64]
    requires { length bytes.now ≤ 64 }
    ensures { result ≡ bytes.now ++ replicate (64 - length bytes.now) 0 }
{
    let mut kept = [0; 64];
    kept[..bytes.len()].copy_from_slice(bytes);
    kept
}

/// Whether a byte is a letter, `_`, `.` or `$`.
fn begins_name(byte: u8) -> bool
    ensures { result ≡ begins_name byte }
{
    byte.is_ascii_alphabetic() || byte == b'_' || byte == b'.' || byte == b'$'
}

/// Whether a byte is a letter, a digit, `_`, `.` or `$`.
// Digits of a base up to 36 are the digits and the letters; one look-up tells them.
pub fn continues_name(byte: u8) -> bool
    ensures { result ≡ continues_name byte }
{
    digit_value(byte) < 36 || matches!(byte, b'_' | b'.' | b'$')
}
