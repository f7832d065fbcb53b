// Names of rule bodies, kept by rule: which rules a step is about and what their bodies are called; and the bodies of at most 12 literals,
// kept by name, with the names of all bodies of a weight rule. What the functions promise is specs/Queries.antt, specs/ByName.antt and
// specs/Minimal.antt. No service: the checker's steps are built on it.
#![tactic(auto)]

pub mod by_name;
pub mod minimal;
pub mod queries;
