//! What a record is for.

/// What a record is for, as its type digit says.
#[derive(Clone, Copy)]
pub enum Purpose {
    /// The record heads the text.
    Header,
    /// The record loads data at its address.
    Data,
    /// The record tells how many records before it load.
    Tally,
    /// The record ends the text, and its address is the start address.
    End,
}
