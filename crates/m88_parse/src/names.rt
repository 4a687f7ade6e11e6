//! Names with a meaning of their own: registers, bits, conditions, halves, symbols.
ghost use Rattle.std.specs.Prelude.{◌≡◌, SomeIff, true};
ghost use Rattle.m88_parse.specs.Inside.Names.{GivesBelow, register_of, control_of, float_control_of, control_in, is_here, is_module, is_valid_name, is_symbol};
ghost use Rattle.m88_parse.specs.Language.Words.{bit_named, condition_named, half_named};

use m88_base::{Kind, Name, decimal_in};

/// The number of a general register.
#[tactic(auto, unfolding(crate::specs::Inside::Names::register_of))]
pub(crate) fn register_of(name: &[u8]) -> Option<u32>
    ensures { GivesBelow 32 result (register_of name.now) }
{
    match name {
        [b'r', digits @ ..] => decimal_in(digits, 31),
        _ => None,
    }
}

/// The number of a control register of the integer unit, crN.
#[tactic(auto, unfolding(crate::specs::Inside::Names::control_of))]
fn control_of(name: &[u8]) -> Option<u32>
    ensures { GivesBelow 64 result (control_of name.now) }
{
    match name {
        [b'c', b'r', digits @ ..] => decimal_in(digits, 63),
        _ => None,
    }
}

/// The number of a control register of the floating-point unit, fcrN.
#[tactic(auto, unfolding(crate::specs::Inside::Names::float_control_of))]
fn float_control_of(name: &[u8]) -> Option<u32>
    ensures { GivesBelow 64 result (float_control_of name.now) }
{
    match name {
        [b'f', rest @ ..] => control_of(rest),
        _ => None,
    }
}

/// The number of a control register, of the floating-point unit where `float`.
pub(crate) fn control_in(float: bool, name: &[u8]) -> Option<u32>
    ensures { GivesBelow 64 result (control_in float name.now) }
{
    if float {
        float_control_of(name)
    } else {
        control_of(name)
    }
}

/// The bit of a comparison, by its name.
#[tactic(auto, unfolding(crate::specs::Language::Words::bit_named))]
pub(crate) fn bit_named(name: &[u8]) -> Option<u32>
    ensures { GivesBelow 32 result (bit_named name.now) }
{
    match name {
        b"eq" => Some(2),
        b"ne" => Some(3),
        b"gt" => Some(4),
        b"le" => Some(5),
        b"lt" => Some(6),
        b"ge" => Some(7),
        b"hi" => Some(8),
        b"ls" => Some(9),
        b"lo" => Some(10),
        b"hs" => Some(11),
        _ => None,
    }
}

/// The mask of a condition, by its name.
#[tactic(auto, unfolding(crate::specs::Language::Words::condition_named))]
pub(crate) fn condition_named(name: &[u8]) -> Option<u32>
    ensures { GivesBelow 16 result (condition_named name.now) }
{
    match name {
        b"eq0" => Some(2),
        b"ne0" => Some(13),
        b"gt0" => Some(1),
        b"lt0" => Some(12),
        b"ge0" => Some(3),
        b"le0" => Some(14),
        _ => None,
    }
}

/// Which half of a value `hi16` and `lo16` name.
#[tactic(auto, unfolding(crate::specs::Language::Words::half_named))]
pub(crate) fn half_named(name: &[u8]) -> Option<Kind>
    ensures { result ≡ half_named name.now }
{
    match name {
        b"hi16" => Some(Kind::Hi16),
        b"lo16" => Some(Kind::Lo16),
        _ => None,
    }
}

/// Whether a name is `.`, the place of the statement.
pub(crate) fn is_here(name: &[u8]) -> bool
    ensures { result ≡ is_here name.now }
{
    name == b".".as_slice()
}

/// Whether a name is `.module`, which begins a module.
pub(crate) fn is_module(name: &[u8]) -> bool
    ensures { result ≡ is_module name.now }
{
    name == b".module".as_slice()
}

/// The name that the bytes are, if they are one.
pub(crate) fn name_of(text: &[u8]) -> Option<Name>
    ensures { SomeIff result (is_valid_name text.now ≡ true) text.now }
{
    Name::new(text)
}

/// The label or symbol of a name, or None where it has another meaning.
#[tactic(auto, unfolding(crate::specs::Inside::Names::is_symbol))]
pub(crate) fn symbol_of(name: &[u8]) -> Option<Name>
    ensures { SomeIff result (is_symbol name.now ≡ true) name.now }
{
    if is_here(name)
        || register_of(name).is_some()
        || control_of(name).is_some()
        || float_control_of(name).is_some()
    {
        None
    } else {
        name_of(name)
    }
}
