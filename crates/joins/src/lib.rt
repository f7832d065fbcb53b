// Partial sums joined two by two: the rules of a joined node, and of a whole sum that is split, as text.
#![tactic(auto)]

pub mod chains;
pub mod joining;
pub mod pairing;
