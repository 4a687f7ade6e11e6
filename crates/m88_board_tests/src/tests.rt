//! Calls on the parts of the board that no command makes, and answers that no command shows. One call of a part stands in a
//! function of its own where it changes the part, since that is proved soonest.

// the smaller parts
mod control;
mod memory;
mod registers;
mod transactions;

// instructions
mod emulation;
mod instructions;

// whole runs
mod handing;
mod handlers;
mod paging;
mod report;
mod sharing;
