//! The numbers of the control registers.

/// The processor's identification, which can't be written.
pub const PID: u8 = 0;
/// The processor's status.
pub const PSR: u8 = 1;
/// The status that an exception saves.
pub const EPSR: u8 = 2;
/// The scoreboard that an exception saves: bit n says that register n waits, and bit 0 is never set.
pub const SSBR: u8 = 3;
/// The pointer to the instruction retired last that an exception saves.
pub const SXIP: u8 = 4;
/// The pointer to the next instruction that an exception saves.
pub const SNIP: u8 = 5;
/// The pointer to the instruction being fetched that an exception saves.
pub const SFIP: u8 = 6;
/// The base of the addresses of the exceptions' handlers.
pub const VBR: u8 = 7;
/// The marks of the youngest of three data transactions.
pub const DMT2: u8 = 8;
/// The data of the youngest.
pub const DMD2: u8 = 9;
/// The address of the youngest.
pub const DMA2: u8 = 10;
/// The marks of the transaction in the middle.
pub const DMT1: u8 = 11;
/// The data of the one in the middle.
pub const DMD1: u8 = 12;
/// The address of the one in the middle.
pub const DMA1: u8 = 13;
/// The marks of the oldest transaction.
pub const DMT0: u8 = 14;
/// The data of the oldest.
pub const DMD0: u8 = 15;
/// The address of the oldest.
pub const DMA0: u8 = 16;
/// The supervisor's first storage register.
pub const SR0: u8 = 17;
/// The second one.
pub const SR1: u8 = 18;
/// The third one.
pub const SR2: u8 = 19;
/// The fourth one.
pub const SR3: u8 = 20;
