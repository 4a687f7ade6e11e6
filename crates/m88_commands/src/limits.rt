//! The limits of inputs, runs, workloads and sessions; those of a script, and of the pages and letters that a command
//! names, stand where they are read.

pub use m88_base::MOST_INPUT;

/// The most instructions that a run may be allowed.
pub const MOST_LIMIT: u32 = 1_000_000;

/// The most statements that a generated workload may have.
pub const MOST_STATEMENTS: u32 = 40_000;

/// The most instructions that the board of a session with the monitor retires.
pub const SESSION_LIMIT: u32 = 100_000;

/// The most frames of a paged run.
pub const MOST_FRAMES: u32 = 64;
