// What a set costs and the program restricted to lower costs: definitions and theorems over lists of rules, no code. What a reader must
// believe is specs/, and the claims are specs/Claims.antt and specs/OneRate.antt.
#![tactic(auto)]
