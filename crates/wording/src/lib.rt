// Words for a rule file of any bytes: text in pieces, and what its nodes are called.
//
// Of the words nothing is promised but that there are some for every node.
#![tactic(auto)]

pub use layout::outline;

pub mod text;
pub mod words;
