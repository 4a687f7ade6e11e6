//! The parts of the board, called by hand. There are only tests here, of calls and answers that no command reaches; what
//! commands reach stands in the rows of `m88_rows`.
#![tactic(auto)]

#[cfg(test)]
mod tests;
