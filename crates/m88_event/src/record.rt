//! What a data fault leaves in the control registers.

use m88_base::Triple;

/// The control registers after a data fault, 32 bits each ("Exception Processing": data access exception).
#[derive(Clone, Copy, PartialEq, Eq, Debug)]
pub struct Record {
    /// The number of the event, from 1.
    pub event: u64,
    /// The processor status at the fault.
    pub epsr: u32,
    /// The instruction retired last: its byte address in bits 31 to 2, V in bit 1, E in bit 0.
    pub sxip: u32,
    /// The next instruction, in the same form. A bubble has V = 0.
    pub snip: u32,
    /// The instruction behind that one, in the same form.
    pub sfip: u32,
    /// The registers that wait for a load, a bit for each.
    pub ssbr: u32,
    /// The pending transactions, the oldest first; behind them all words are 0.
    pub triples: [Triple; 3],
}
