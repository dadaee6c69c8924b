// A name in force.

/// A declaration in force, as far as it is looked at: the name, the scope that it is of, the node that declares it, and the
/// cells that it takes.
#[derive(Clone, Copy, PartialEq, Eq, Debug)]
pub struct Binding {
    pub name: u8,
    pub scope: usize,
    pub node: usize,
    pub cells: u32,
}
