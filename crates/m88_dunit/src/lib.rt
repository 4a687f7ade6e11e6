//! The data unit: up to three transactions that are pending, and the words that it has of them.
#![tactic(auto)]

mod data_unit;
mod full;
mod stage;
mod words;

pub use data_unit::{DataUnit, MOST_PENDING};
pub use full::Full;
pub use m88_isa::triple_of;
pub use words::access_of;
