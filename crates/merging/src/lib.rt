// Two halves of a split into one proof: definitions and theorems over lists of steps, no code. What a reader must believe is specs/,
// and the claims are specs/Claims.antt.
#![tactic(auto)]
