//! What the statements of a unit put where.
ghost use Rattle.std.specs.Prelude.{◌≡◌, [], ◌∷◌, ◌++◌, slice_get, IfOk, OnOk};
ghost use Rattle.std.specs.Option.{option_map, option_map_or};
ghost use Rattle.std.specs.List.{All};
ghost use Rattle.m88_asm.specs.Counters.{at_begin};
ghost use Rattle.m88_asm.specs.Objects.{labels_at};
ghost use Rattle.m88_listing.specs.Rows.{named_by, shown_as};
ghost use Rattle.m88_listing.specs.Inside.Slots.{StandsWithin, ModuleFits, PutsSlot, counters_in, slots_from, slots_of, symbol_slot};

use crate::cursor::Cursor;
use crate::slots::{Shown, Slot};
use crate::standing::Standing;
use m88_asm::length_at;
use m88_parse::{Body, Statement};
use std::alloc::{AllocError, Global};

/// How the bytes of a body are shown.
fn shown_as(body: &Body) -> Shown
    ensures { result ≡ shown_as body.now }
{
    match body {
        Body::Zero(_) | Body::Align(_) => Shown::Zeros,
        _ => Shown::Bytes,
    }
}

/// What is kept of a label alone: the address of the next byte, before the section of the label's statement stands.
fn label_slot(cursor: &Cursor, standing: &Standing<'_>, x: &Statement) -> Option<Slot>
    ensures { result ≡ option_map (symbol_slot standing.now)
        (slice_get (labels_at (counters_in cursor.now) x.now.line x.now.label) 0) }
{
    match &x.label {
        Some(_) => Some(Slot {
            line: x.line,
            at: standing.address(cursor.here(), cursor.offset()),
            len: 0,
            shown: Shown::Bytes,
        }),
        None => None,
    }
}

/// What is kept of a statement that gives no byte: the value of its `.set`, or else its label.
fn named_by(cursor: &Cursor, standing: &Standing<'_>, x: &Statement) -> Option<Slot>
    ensures { result ≡ option_map (symbol_slot standing.now)
        (named_by (record { before = counters_in cursor.now; statement = x.now })) }
{
    match &x.body {
        Body::Set { value, .. } => Some(Slot {
            line: x.line,
            at: *value,
            len: 0,
            shown: Shown::Value,
        }),
        _ => label_slot(cursor, standing, x),
    }
}

/// Appends what is kept of a statement that gives no byte, where it names something.
fn push_named(slots: &mut Vec<Slot>, named: Option<Slot>) -> Result<(), AllocError>
    ensures { OnOk result
        (slots.new.items ≡ slots.old.items ++ option_map_or (λ s. s ∷ []) named []) }
{
    if let Some(slot) = named {
        slots.push(slot)?;
    }
    Ok(())
}

/// Appends what is kept of a statement, and goes on behind it.
fn push_slot(
    slots: &mut Vec<Slot>,
    cursor: &mut Cursor,
    standing: &Standing<'_>,
    x: &Statement,
) -> Result<(), AllocError>
    requires { StandsWithin standing.now
        (record { before = counters_in cursor.old; statement = x.now }) }
    ensures { OnOk result (PutsSlot standing.now
        (record { before = counters_in cursor.old; statement = x.now })
        (counters_in cursor.new) slots.old.items slots.new.items) }
{
    let named = named_by(cursor, standing, x);
    cursor.enter(&x.body)?;
    let len = length_at(cursor.place(), &x.body);
    if len > 0 {
        slots.push(Slot {
            line: x.line,
            at: standing.base(cursor.here()) + cursor.offset() as u32,
            len,
            shown: shown_as(&x.body),
        })?;
    } else {
        push_named(slots, named)?;
    }
    cursor.advance(len);
    Ok(())
}

/// Appends what is kept of the statements of a module.
fn push_slots(
    slots: &mut Vec<Slot>,
    alloc: Global,
    standing: &Standing<'_>,
) -> Result<(), AllocError>
    requires { ModuleFits standing.now }
    ensures { OnOk result (slots.new.items ≡ slots.old.items
        ++ slots_from standing.now at_begin standing.now.part.statements) }
{
    let mut cursor = Cursor::new(alloc)?;
    for x in standing.statements() {
        push_slot(slots, &mut cursor, standing, x)?;
    }
    Ok(())
}

/// What is kept of the statements of modules.
pub(crate) fn slots(alloc: Global, standings: &[Standing<'_>]) -> Result<Vec<Slot>, AllocError>
    requires { All ModuleFits standings.now }
    ensures { IfOk result (λ v. v.items ≡ slots_of standings.now) }
{
    let mut slots = Vec::new(alloc);
    for standing in standings {
        push_slots(&mut slots, alloc, standing)?;
    }
    Ok(slots)
}
