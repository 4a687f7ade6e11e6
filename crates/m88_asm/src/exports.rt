//! Which symbols of a module other modules see.
ghost use Rattle.std.specs.Prelude.{◌≡◌, ◌||◌, ℕ, List, bytes_eq, map, IfOk, OnOk};
ghost use Rattle.std.specs.List.{list_any};
ghost use Rattle.indexmap.specs.IndexSet.{contains};
ghost use Rattle.m88_link.specs.Sound.{start_name};
ghost use Rattle.m88_asm.specs.Inside.Exports.{marked_where};
ghost use Rattle.m88_asm.specs.Objects.{declares};

use indexmap::IndexSet;
use m88_base::Name;
use m88_link::Symbol;
use m88_parse::{Body, Statement};
use std::alloc::{AllocError, Global};

/// Notes the name of a `.global`.
fn note(names: &mut IndexSet<Name>, body: &Body) -> Result<(), AllocError>
    ensures { OnOk result ((name : List ℕ)
        → contains bytes_eq names.new name
        ≡ (contains bytes_eq names.old name || declares name body.now)) }
{
    match body {
        Body::Global(name) => {
            names.insert(*name)?;
            Ok(())
        }
        _ => Ok(()),
    }
}

/// The names that the `.global` of a module name.
pub(crate) fn declared(
    alloc: Global,
    statements: &[Statement],
) -> Result<IndexSet<Name>, AllocError>
    ensures { IfOk result (λ names. (name : List ℕ)
        → contains bytes_eq names name ≡ list_any (λ x. declares name x.body) statements.now) }
{
    let mut names = IndexSet::new(alloc);
    for x in statements {
        note(&mut names, &x.body)?;
    }
    Ok(names)
}

/// Whether a name is global in a module whose `.global` have these names.
fn is_global(names: &IndexSet<Name>, name: &Name) -> bool
    ensures { result ≡ (bytes_eq name.now start_name || contains bytes_eq names.now name.now) }
{
    // Where nothing is declared, no name is hashed.
    name.bytes() == b"_start".as_slice() || !names.is_empty() && names.contains(name)
}

/// The symbols of a module whose `.global` have these names, each marked as global or not.
pub(crate) fn marked(
    alloc: Global,
    symbols: &[Symbol],
    names: &IndexSet<Name>,
) -> Result<Vec<Symbol>, AllocError>
    ensures { IfOk result (λ v. v.items
        ≡ map (marked_where (contains bytes_eq names.now)) symbols.now) }
{
    let mut out = Vec::with_capacity(alloc, symbols.len())?;
    for s in symbols {
        out.push(Symbol {
            global: is_global(names, &s.name),
            ..*s
        })?;
    }
    Ok(out)
}
