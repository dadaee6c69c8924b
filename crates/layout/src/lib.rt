// The rule file: the reader over it, where its nodes lie, and the faults that it can have.
#![tactic(auto)]

pub mod fault;
pub mod items;
pub mod outline;
pub mod reader;
