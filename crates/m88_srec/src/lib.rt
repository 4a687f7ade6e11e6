//! S-records: the text of an image for a monitor's loader or a device programmer, written and read (Motorola S-record
//! format). Types 0 to 3, 5 and 7 to 9 are read, and types 0, 3 and 7 are written.
//! What a text writes is said in `specs/` as a relation between its lines and the records.
#![tactic(auto)]

// Lines, and what has the form of a record.
mod digits;
mod form;
mod record;

// Texts read, and why they are refused.
mod fault;
mod front;
mod load_end;
mod loader;
mod loading;
mod purpose;
mod reader;
mod records;
mod so_far;
mod stream;

// Texts written.
mod frame;
mod writer;

pub use fault::{SrecFault, SrecKind};
pub use load_end::LoadEnd;
pub use loader::Loader;
pub use reader::read_srec;
pub use records::read_records;
pub use stream::read_image;
pub use writer::write_srec;
