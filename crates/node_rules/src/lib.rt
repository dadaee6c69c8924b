// The rules of the language: what a name means at a node, the type of an expression, and the first violation, as definitions; and the
// rules of one node as code.
//
// Proved: over what the rules look at of a node, the code finds exactly the lowest rule that is broken there, and its type. What a
// whole file breaks is found by the crate `checker`, and what follows from the definitions stands in `rule_laws`.
#![tactic(auto)]

pub mod binding;
pub mod cells;
pub mod context;
pub mod facts;
pub mod judge;
pub mod types;
pub mod violation;
