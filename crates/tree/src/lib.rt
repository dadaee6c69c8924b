// The nodes of a file: their fields, and the tree that their sizes make.
#![tactic(auto)]

mod body;
mod children;
pub mod faults;
pub mod laws;
mod sizes;
mod walk;
