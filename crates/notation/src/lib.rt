// The notation of worked cases: how a case is read, how an answer is written, and a proof step by step. The program `cases` uses it; nothing
// is claimed of either but that they are safe and end.
#![tactic(auto)]

pub mod reading;
pub mod saying;
pub mod stepping;
