// What follows from the rules of the language.
//
// Proved: what the definitions say of the worked cases, by computation from the bytes of small rule files; that the table of every file
// without a fault is shaped as its kinds ask; and that where there is no violation every rule is kept at every node, and every
// expression has a type but for a call of a void method that is a statement.
#![tactic(auto)]

pub mod laws;
pub mod worked;
