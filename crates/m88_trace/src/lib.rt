//! Traces: a line for each step of a program's history, and one for its end. `trace_run` writes the trace of a run on
//! a board, and `check_trace` says whether a text is the beginning of a program's trace. The definitions in `specs/`
//! say the lines over the history of the sequential machine.
#![tactic(auto)]

// the parts of a line
mod parts;

// a text against the lines of a history
mod checking;
mod doing;
mod fault;
mod follower;

// the trace of a run
mod running;
mod sheet;
mod telling;
mod upcoming;
mod waiting;

pub use checking::check_trace;
pub use fault::TraceFault;
pub use running::trace_run;
