// What ASP-DRUPE means under document 01: the closure, the seven steps, and demand 3 over lists of steps. Definitions and theorems,
// no code: what a reader must believe is specs/, and the claims are specs/Claims.antt.
#![tactic(auto)]
