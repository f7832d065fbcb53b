// A long sum split into short ones: definitions and theorems over lists of rules, no code. What a reader must believe is specs/, and the
// claims are specs/Claims.antt.
#![tactic(auto)]
