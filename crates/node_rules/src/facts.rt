// What the rules look at, of one node.
use crate::types::Ty;
use nodes::kind::Kind;
use nodes::node::Node;

/// The declaration that a name means: its kind, and the type that its tag tells.
#[derive(Clone, Copy, PartialEq, Eq, Debug)]
pub struct Declared {
    pub kind: Kind,
    pub ty: Option<Ty>,
}

/// What a node's children are: how many, the types of the first two, and whether each that is an expression has a type.
#[derive(Clone, Copy, PartialEq, Eq, Debug)]
pub struct Held {
    pub count: usize,
    pub first: Option<Ty>,
    pub second: Option<Ty>,
    pub typed: bool,
}

/// What the rules look at, of one node.
#[derive(Clone, Copy, PartialEq, Eq, Debug)]
pub struct Facts {
    pub node: Node,
    /// a declaration: its scope has the name already
    pub repeats: bool,
    /// the program has a void method main without parameters
    pub main: bool,
    /// what its name means
    pub means: Option<Declared>,
    pub held: Held,
    /// a call: its arguments match the parameters of the method that it names
    pub matching: bool,
    /// the kind of its parent, and what the parent's name means
    pub parent: Kind,
    pub callee: Option<Declared>,
    /// the type of the method that it lies in
    pub result: Option<Ty>,
    /// whether it lies in a for or a while
    pub looped: bool,
}
