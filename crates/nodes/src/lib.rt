// Node records and what their kinds ask of them.
#![tactic(auto)]

pub mod bytes;
pub mod fields;
pub mod kind;
pub mod node;
pub mod shape;
