//! What the data unit keeps of one memory transaction.

/// The three words of a transaction ("Data Unit": transaction registers), each of 32 bits.
#[derive(Clone, Copy, PartialEq, Eq, Debug)]
pub struct Triple {
    /// What kind of access it is, with the register and the bytes that it touches.
    pub dmt: u32,
    /// The whole word of the register that a store writes; 0 for a load.
    pub dmd: u32,
    /// The byte address of the word.
    pub dma: u32,
}

/// The words where there is no transaction.
pub const NO_TRIPLE: Triple = Triple {
    dmt: 0,
    dmd: 0,
    dma: 0,
};
