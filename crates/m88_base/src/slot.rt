//! One instruction pointer.

/// An instruction pointer ("Exception Processing": the words of XIP, NIP and FIP).
#[derive(Clone, Copy, PartialEq, Eq, Debug)]
pub struct Slot {
    /// The byte address of the instruction, a multiple of 4.
    pub addr: u32,
    /// Whether the instruction is carried out: it isn't where a taken branch without delay slot stands before it.
    pub v: bool,
    /// Whether its fetch failed.
    pub e: bool,
}
