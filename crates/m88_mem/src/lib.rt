//! Memory over two buses: the instruction bus has the image as it was linked, and the data bus starts with
//! the same bytes and has pages that are present or absent.
#![tactic(auto)]

mod absent_page;
mod frames;
mod lines;
mod marks;
mod memory;
mod places;
mod reads;

pub use absent_page::AbsentPage;
pub use lines::Line;
pub use m88_base::{PAGE_BYTES, PAGE_COUNT};
pub use memory::Memory;
