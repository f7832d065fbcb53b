// What the whole check, the set test and the cheapest answer set say of a program, over its text as it is written and with no reader in
// the statement, and what the services for C return of it. Definitions and theorems, no code: what is stated is specs/Page.antt.
#![tactic(auto)]
