// What the programs share that read an input: the reading itself; and for those that replay recorded answers the reading of the bytes of a sample, a
// check over the numbers of a buffer, and the counts of what agreed, which are printed.
#![tactic(auto)]

pub mod check;
pub mod input;
pub mod read;
pub mod tally;
