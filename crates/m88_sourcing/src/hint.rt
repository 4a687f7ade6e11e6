//! What words of the program say of an image, hint by hint.
ghost use Rattle.std.specs.Prelude.{◌≡◌, ◌∷◌, IfSome, Some, codes};
ghost use Rattle.m88_base.specs.Words.{texts};
ghost use Rattle.m88_sourcing.specs.Hints.{AreVectors, vectors_from};
ghost use Rattle.m88_sourcing.specs.Inside.Hinting.{ReadsHint};

use crate::place::{Places, number, places_in};
use m88_base::first_word;

/// The most vectors, as many as the chip has.
const MOST_VECTORS: u32 = 512;

/// The bytes of a vector: a branch and its slot.
const VECTOR_BYTES: u32 = 8;

/// What is said of an image beside its bytes.
#[derive(Clone, Copy, PartialEq, Eq, Debug)]
pub(crate) enum Hint {
    /// Code begins at each of these.
    Enters(Places),
    /// The same, and their words stay where they are.
    Fixes(Places),
    /// The binary starts there.
    Starts(u32),
}

impl Hint {
    ghost use Rattle.std.specs.Option.{option_to_list};
    ghost use Rattle.m88_sourcing.specs.Request.{addresses_in, starts_in};

    /// How many addresses it names at which code begins.
    pub fn addresses(self) -> usize
        ensures { result ≡ addresses_in self }
    {
        match self {
            Hint::Enters(places) | Hint::Fixes(places) => places.count,
            Hint::Starts(_) => 0,
        }
    }

    /// Where it says that a binary starts.
    pub fn start(self) -> Option<u32>
        ensures { option_to_list result ≡ starts_in self }
    {
        match self {
            Hint::Starts(at) => Some(at),
            _ => None,
        }
    }
}

/// A hint, and the words behind it.
#[derive(Clone, Copy)]
pub(crate) struct Leading<'a> {
    pub hint: Hint,
    pub rest: &'a [String],
}

/// What words behind `fixed` say.
fn fixed_hint(words: &[String]) -> Option<Leading<'_>>
    ensures { ReadsHint (codes "fixed" ∷ texts words.now) result }
{
    let (word, rest) = first_word(words)?;
    let places = places_in(word.as_bytes())?;
    Some(Leading {
        hint: Hint::Fixes(places),
        rest,
    })
}

/// So many vectors in turn from an address on; None where there may be no such.
fn vectors(at: u32, count: u32) -> Option<Places>
    ensures found { IfSome result (λ p. AreVectors at count × (p ≡ vectors_from at count)) }
    ensures only { AreVectors at count → result ≡ Some (vectors_from at count) }
{
    if !at.is_multiple_of(4) || count == 0 || MOST_VECTORS < count {
        return None;
    }
    if u32::MAX - at < VECTOR_BYTES * (count - 1) {
        return None;
    }
    Some(Places {
        first: at,
        step: VECTOR_BYTES,
        count: count as usize,
    })
}

/// What words behind `vectors` say.
fn vectors_hint(words: &[String]) -> Option<Leading<'_>>
    ensures { ReadsHint (codes "vectors" ∷ texts words.now) result }
{
    let (first, behind) = first_word(words)?;
    let (second, rest) = first_word(behind)?;
    let at = number(first.as_bytes())?;
    let count = number(second.as_bytes())?;
    let places = vectors(at, count)?;
    Some(Leading {
        hint: Hint::Fixes(places),
        rest,
    })
}

/// What words behind `start` say.
fn start_hint(words: &[String]) -> Option<Leading<'_>>
    ensures { ReadsHint (codes "start" ∷ texts words.now) result }
{
    let (word, rest) = first_word(words)?;
    let at = number(word.as_bytes())?;
    Some(Leading {
        hint: Hint::Starts(at),
        rest,
    })
}

/// What words say that begin with no name of a hint.
fn entry_hint<'a>(word: &str, rest: &'a [String]) -> Option<Leading<'a>>
    requires fixed { word.now ≡ codes "fixed" → ⊥ }
    requires vectors { word.now ≡ codes "vectors" → ⊥ }
    requires start { word.now ≡ codes "start" → ⊥ }
    ensures { ReadsHint (word.now ∷ texts rest.now) result }
{
    let places = places_in(word.as_bytes())?;
    Some(Leading {
        hint: Hint::Enters(places),
        rest,
    })
}

/// The hint with which words begin; None where they begin with none.
pub(crate) fn first_hint(words: &[String]) -> Option<Leading<'_>>
    ensures { ReadsHint (texts words.now) result }
{
    let (word, rest) = first_word(words)?;
    match word {
        "fixed" => fixed_hint(rest),
        "vectors" => vectors_hint(rest),
        "start" => start_hint(rest),
        _ => entry_hint(word, rest),
    }
}
