// Completeness of the seven steps: every program without an answer set has a derivation that is accepted, save for question 23's limits on
// lines. Definitions and theorems, no code: what a reader must believe is specs/.
#![tactic(auto)]
