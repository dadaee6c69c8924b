// How far a rule under way has come.
use crate::value::Value;

/// How a node ended: what it gives to the node that began it.
#[derive(Clone, Copy, PartialEq, Eq, Debug)]
pub enum Completion {
    /// a statement, or a call of a void method
    Ended,
    /// an expression that is no location
    Valued(Value),
    /// a location: its cell, and what that holds
    Located { cell: usize, value: Value },
    /// a break that has yet to reach its loop
    Broke,
    /// a continue that has yet to reach its loop
    Continued,
    /// a return that has yet to reach its call
    Returned(Option<Value>),
}

/// What an open node keeps while a later child runs.
#[derive(Clone, Copy, PartialEq, Eq, Debug)]
pub enum Kept {
    /// an assignment: the cell of its location
    Target(usize),
    /// a binary operator: its left operand
    Left(Value),
}

/// An open node: which, how far it has come, how many cells were in use when it was begun, where the cells of its names begin, and what
/// it keeps, if anything.
#[derive(Clone, Copy, PartialEq, Eq, Debug)]
pub struct Open {
    pub node: usize,
    /// of a block the child that is next, where there is one; of any other node a count
    pub came: usize,
    pub base: usize,
    pub frame: usize,
    pub kept: Option<Kept>,
}

/// What is next.
#[derive(Clone, Copy, PartialEq, Eq, Debug)]
pub enum Pending {
    /// a node is to begin, with the cells of its names from `frame` on
    Begin { node: usize, frame: usize },
    /// the innermost open node has just begun
    Begun,
    /// the innermost open node has been given what its child ended with
    Given(Completion),
}
