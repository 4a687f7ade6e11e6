//! What programs between standard input and standard output share: they answer the words of their process, and tell a
//! person where an input is refused, and what it is where that can be seen. What went through them is remembered for
//! that. It stands outside every promise but that it is safe and ends.
#![tactic(auto)]

mod filter;
mod keeping;
mod refusal;
mod seen;

pub use filter::{Filter, run, tell_refusal, tell_seen};
pub use keeping::{Keeping, Showing};
pub use refusal::{Marked, put_quoted, put_shown};
pub use seen::{Seen, Wanted};
