//! What is kept of a statement until its line is written.

/// How a line shows what its statement gives: bytes, none of them where a label stands alone; zeros, told as a count;
/// or no byte but the value of a `.set`.
#[derive(Clone, Copy, PartialEq, Eq, Debug)]
pub enum Shown {
    Bytes,
    Zeros,
    Value,
}

/// The line of a statement, the address and the number of its bytes, and how they are shown. Of a line that gives no
/// byte the address is that of its label, or the value of its `.set`.
#[derive(Clone, Copy, PartialEq, Eq, Debug)]
pub struct Slot {
    pub line: u32,
    pub at: u32,
    pub len: usize,
    pub shown: Shown,
}
