//! The monitor's trap and what a program asks of it: the service is the number in r9, and the low byte of r2 is
//! what is put out.

/// What the monitor does for a program that traps.
#[derive(Clone, Copy, PartialEq, Eq, Debug)]
pub enum Service {
    /// The monitor puts this byte out.
    Out(u8),
    /// The monitor ends the program.
    End,
    /// Nothing: the trap isn't one that it serves.
    Unserved,
}

/// The vector of the trap that asks the monitor for a service.
pub const MONITOR_TRAP: u16 = 496;

/// The service that appends a byte to the output.
pub const PUT_SERVICE: u32 = 0x20;

/// The service that ends the program.
pub const EXIT_SERVICE: u32 = 0x63;

/// The number of the register that has the service.
pub const SERVICE_REGISTER: usize = 9;

/// The number of the register whose low byte is put out.
pub const OUTPUT_REGISTER: usize = 2;
