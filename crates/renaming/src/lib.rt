// The new names of the second half's bodies and extensions, and the lines of a half written with them: document 02, Change 9. What the
// functions leave is specs/Renames.antt, specs/Standing.antt and specs/Writing.antt. No service: crate splits joins the lines to one text.
#![tactic(auto)]

pub mod lines;
pub mod renames;
