// What acceptance of a rule gives for running it.
//
// Proved: no accepted rule is ever stuck, by itself and in any course of calls from a new runner, for every book (`specs/Never`). On the
// way: of every file without a fault and without a violation, the facts of each node, its children and what it names that keep a run
// from being stuck (`specs/Acceptance`).
#![tactic(auto)]

pub mod laws;
