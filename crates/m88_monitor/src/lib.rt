//! The monitor: it finishes the data transactions that a fault left, and serves the traps of a program.
#![tactic(auto)]

mod served;
mod traps;

pub use m88_isa::Service;
pub use served::{Served, ServedAccess, serve, serve_triple};
pub use traps::service;
