// What a node has of the nodes around and before it.

/// Where a node stands, and what its name means there.
#[derive(Clone, Copy, PartialEq, Eq, Debug)]
pub struct Context {
    pub parent: usize,
    /// the scope that a declaration at its place is of
    pub scope: usize,
    /// the method that it lies in; the program, node 0, where it lies in none
    // Kept: the definition of methods gives node 0 there, which is no method.
    pub method: usize,
    /// whether it lies in a for or a while
    pub looped: bool,
    /// the node that declares what its name means; none for a kind without a name
    pub means: Option<usize>,
    /// of a variable: its first cell, among the fields or among the cells of its call
    pub place: u64,
}
