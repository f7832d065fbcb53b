// Long sums split into short ones, as text: the generalized totalizer of crate sums, for a program that is read.
#![tactic(auto)]

pub mod levels;
pub mod texts;
