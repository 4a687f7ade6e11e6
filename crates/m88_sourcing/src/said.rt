//! What is said of an image beside its bytes.
ghost use Rattle.std.specs.Prelude.{◌≡◌, ◌++◌, IfOk, List, OnOk};
ghost use Rattle.m88_base.specs.Words.{texts};
ghost use Rattle.m88_sourcing.specs.Hints.{AreHints};
ghost use Rattle.m88_sourcing.specs.Inside.Hinting.{IsWithin};
ghost use Rattle.m88_sourcing.specs.Said.{entries_in, fixed_in, said_of, told};
ghost use Rattle.m88_sourcing.specs.declared.hint.Hint.{Hint as Kept};

use crate::hint::{Hint, first_hint};
use crate::place::push_places;
use std::alloc::{AllocError, Global};

/// What is said of an image beside its bytes, by addresses whose two low bits don't count.
#[derive(Drop, Debug)]
pub struct Said {
    /// Where code begins besides the start.
    pub entries: Vec<u32>,
    /// Those of `entries` whose words stay where they are: the chip, or a program elsewhere, goes there.
    pub fixed: Vec<u32>,
}

/// Adds what a hint says.
fn add_hint(said: &mut Said, hint: Hint) -> Result<(), AllocError>
    requires { IsWithin hint }
    ensures entries { OnOk result
        (said.new.entries.items ≡ said.old.entries.items ++ entries_in hint) }
    ensures fixed { OnOk result
        (said.new.fixed.items ≡ said.old.fixed.items ++ fixed_in hint) }
{
    match hint {
        Hint::Enters(places) => push_places(&mut said.entries, places),
        Hint::Fixes(places) => {
            push_places(&mut said.entries, places)?;
            push_places(&mut said.fixed, places)
        }
        Hint::Starts(_) => Ok(()),
    }
}

/// What hints say that words say.
pub(crate) fn said_by(alloc: Global, words: &[String]) -> Result<Said, AllocError>
    ensures { IfOk result (λ said. (hints : List Kept) → AreHints (texts words.now) hints
        → told said ≡ said_of hints) }
{
    let mut said = Said {
        entries: Vec::new(alloc),
        fixed: Vec::new(alloc),
    };
    let mut rest = words;
    while let Some(leading) = first_hint(rest) {
        add_hint(&mut said, leading.hint)?;
        rest = leading.rest;
    }
    Ok(said)
}
