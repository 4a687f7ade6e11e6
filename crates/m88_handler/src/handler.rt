//! A handler that was entered.

use m88_ctrl::Control;
use m88_mem::Memory;

/// What a handler works on.
#[derive(Drop)]
pub struct Handler {
    /// The general registers, of which r0 reads as 0.
    pub regs: [u32; 32],
    /// The byte address of its next instruction.
    pub pc: u32,
    /// The byte address of the one that follows it.
    pub next: u32,
    /// The control registers.
    pub control: Control,
    /// The supervisor's memory over the handler's image: code is fetched from the image, and every page is present.
    pub own: Memory,
    /// What it put out.
    pub console: Vec<u8>,
    /// Whether it stopped the run.
    pub stopped: bool,
    /// How many of its instructions are done.
    pub steps: u32,
    /// The program's data memory, whose pages may be absent.
    pub user: Memory,
}
