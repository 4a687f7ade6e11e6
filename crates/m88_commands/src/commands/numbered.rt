//! How lines begin that tell of an event among others of its kind.
ghost use Rattle.std.specs.Prelude.{◌≡◌, ◌++◌, OnOk};
ghost use Rattle.m88_commands.specs.Answer.Numbered.{numbered_event};

use m88_base::push_decimal;
use std::alloc::AllocError;

/// Appends `NAME N event E`, numbers in decimal, and no line end.
pub fn push_numbered_event(
    text: &mut Vec<u8>,
    name: &[u8],
    number: u64,
    event: u64,
) -> Result<(), AllocError>
    ensures { OnOk result (text.new.items ≡ text.old.items
        ++ numbered_event name.now number event) }
{
    text.extend_from_slice(name)?;
    text.push(b' ')?;
    push_decimal(text, number)?;
    text.extend_from_slice(b" event ")?;
    push_decimal(text, event)
}
