// The starred examples of document 01 as one theorem over the definitions of the whole check and of the set test. Definitions and a
// theorem, no code: what is stated is specs/Examples.antt.
#![tactic(auto)]
