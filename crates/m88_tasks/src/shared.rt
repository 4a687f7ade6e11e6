//! What a shared run comes to.

use m88_base::Listed;
use m88_event::Outcome;

/// A switch from one program to another. The words are those that the interrupt saved of the program that ran, 32 bits
/// each ("Exception Processing": interrupt).
#[derive(Clone, Copy, PartialEq, Eq, Debug)]
pub struct Switch {
    /// The number of the event among those of the whole board, from 1.
    pub event: u64,
    /// The program that ran, from 0.
    pub from: u8,
    /// The program that runs from then on, from 0.
    pub to: u8,
    /// Its status: the carry in bit 28.
    pub epsr: u32,
    /// The instruction retired last: its byte address in bits 31 to 2, V in bit 1, E in bit 0.
    pub sxip: u32,
    /// The next instruction, in the same form. A bubble has V = 0.
    pub snip: u32,
    /// The instruction behind that one, in the same form.
    pub sfip: u32,
}

/// What a shared run came to.
#[derive(Drop, Debug)]
pub struct Shared {
    /// What each program came to, in order of the programs.
    pub outcomes: Listed<Outcome>,
    /// The switches, in order.
    pub switches: Listed<Switch>,
    /// The events of the whole board.
    pub events: u64,
}
