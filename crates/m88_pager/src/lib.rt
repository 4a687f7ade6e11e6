//! Demand paging: a data bus kept a second time, in a few frames before a store of pages.
#![tactic(auto)]

// stores of pages
mod mem_store;
mod store;

// the bytes of pages
mod original;
mod word;

// frames before a store
mod frames;

// what a run comes to
mod changed;
mod paged;
mod running;

pub use mem_store::MemStore;
pub use paged::{PageEnd, Paged};
pub use running::page_run;
pub use store::{PageStore, StoreError};
