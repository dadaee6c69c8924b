// The rules of the language, as definitions: what a name means at a node, the type of an expression, and the first violation.
//
// They stood before the checker was written, which is held to those of `node_rules`; the types of the language and the violations are
// the same there and here. Proved: what the definitions say of the worked cases, by computation from the bytes of small rule files;
// that the table of every file without a fault is shaped as its kinds ask; and that where there is no violation every rule is kept at
// every node.
#![tactic(auto)]

pub use node_rules::types;

pub mod laws;
pub mod violation;
pub mod worked;
