// How a rule runs: the reference semantics, as definitions.
//
// The definitions stand in specs/. `next` gives the one next act of a rule under way, from its open nodes, its cells and the meaning of
// the book; `Acts` and `Going` are runs of such acts, and `Course` is what calls of a runner answer, one after another. The modules here
// hold the types of which the definitions speak, so that code can use the very same.
//
// Proved: what a new runner answers in the worked cases, from the bytes of small files (`worked`); that a go and a course have one outcome, and
// that a rule under way between calls has a node that is next to begin (`laws`). Not said here: that an accepted rule is never stuck.
#![tactic(auto)]

pub mod answer;
pub mod import;
pub mod laws;
pub mod progress;
pub mod stop;
pub mod value;
pub mod worked;
