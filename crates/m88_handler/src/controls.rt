//! The control registers that a handler reads and writes.
#![tactic(auto, unfolding(crate::specs::Machine::with_number))]

ghost use Rattle.std.specs.Prelude.{◌≡◌, ◌≤◌, ◌<◌, Some, slice_get, slice_set};
ghost use Rattle.m88_base.specs.Slot.{slot_of};
ghost use Rattle.m88_ctrl.specs.ControlRegisters.{by_number, kept_of};
ghost use Rattle.m88_handler.specs.Machine.{is_frozen, is_shadow, is_unwritable, may_follow, unless_frozen, with_number};

use m88_ctrl::{Control, cr};

/// Whether the shadow registers are frozen: SFRZ is set.
pub(crate) fn is_frozen(control: &Control) -> bool
    ensures { result ≡ is_frozen control.now }
{
    word_of(control, cr::PSR) % 2 == 1
}

/// V of a slot: its instruction is carried out.
pub(crate) fn is_valid_slot(word: u32) -> bool
    ensures { result ≡ (slot_of word).v }
{
    word / 2 % 2 == 1
}

/// The word of a control register, 0 to 20.
pub fn word_of(control: &Control, number: u8) -> u32
    requires { number ≤ 20 }
    ensures { slice_get (by_number control.now) number ≡ Some result }
{
    let Some(word) = control.ldcr(number) else {
        unreachable!();
    };
    word
}

/// Whether a control register can't take a word: PID, and those that aren't there.
pub(crate) fn is_unwritable(number: u8) -> bool
    ensures { result ≡ is_unwritable number }
{
    number == cr::PID || number > cr::SR3
}

/// Whether a status may be written over another: it differs in C, SFD1, MXM, IND and SFRZ at most.
pub(crate) fn may_follow(old: u32, new: u32) -> bool
    ensures { result ≡ may_follow old new }
{
    old / (1 << 29) == new / (1 << 29) && old % (1 << 28) / 16 == new % (1 << 28) / 16
}

/// A control register that can be written takes a word, but for a shadow register that isn't frozen.
pub(crate) fn write(control: &mut Control, number: u8, word: u32)
    requires writable { 0 < number }
    requires there { number ≤ 20 }
    ensures { control.new ≡ with_number number word control.old }
{
    if is_shadow(number) && !is_frozen(control) {
        return;
    }
    let kept = if number == cr::VBR {
        word / (1 << 12) * (1 << 12)
    } else {
        word
    };
    put(control, number, kept);
    if !is_frozen(control) {
        clear_shadow(control);
    }
}

/// The number of a shadow register: SSBR, SXIP, SNIP or SFIP.
fn is_shadow(number: u8) -> bool
    ensures { result ≡ is_shadow number }
{
    number >= cr::SSBR && number <= cr::SFIP
}

/// The shadow registers are 0.
fn clear_shadow(control: &mut Control)
    ensures { control.new ≡ record control.old { ssbr = 0; sxip = 0; snip = 0; sfip = 0 } }
{
    put(control, cr::SSBR, 0);
    put(control, cr::SXIP, 0);
    put(control, cr::SNIP, 0);
    put(control, cr::SFIP, 0);
}

/// Stores a word into a control register that can be written.
fn put(control: &mut Control, number: u8, word: u32)
    requires writable { 0 < number }
    requires there { number ≤ 20 }
    ensures { by_number control.new
        ≡ slice_set (by_number control.old) number (kept_of number word) }
{
    if !control.stcr(number, word) {
        unreachable!();
    }
}
