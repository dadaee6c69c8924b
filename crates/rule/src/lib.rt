// A rule that was accepted, and what a run needs of it.
//
// Proved: each call tells exactly what the tables have at a node, and nothing past the last one. That the tables are right is what
// the checker promises of the rules that it makes.
#![tactic(auto)]

ghost use Rattle.std.specs.Prelude.{◌≡◌, if◌then◌else◌, slice_get, None, nat_lt};
ghost use Rattle.rule.specs.Told.{node_in, meant_in, type_in, place_in, body_in};

use layout::reader::Reader;
use names::MOST_NODES;
use node_rules::context::Context;
use node_rules::types::Ty;
use nodes::node::Node;

/// An accepted rule: its file, and of every node what it is, where it stands, what its name means, and its type.
// Kept: checking cannot fail for memory, so the tables are arrays of the most nodes with a count. Contexts and types are written while
// the nodes are read as one slice, so they are arrays of their own.
#[derive(Drop)]
pub struct Rule<'f> {
    pub reader: Reader<'f>,
    /// how many nodes there are: the first of each table
    pub count: usize,
    pub nodes: [Node; MOST_NODES],
    pub contexts: [Context; MOST_NODES],
    pub types: [Option<Ty>; MOST_NODES],
    /// the body blocks of methods
    pub bodies: [usize; MOST_NODES],
}

// What a table with so many entries has at a place.
fn entry<T: Copy>(table: &[T], count: usize, i: usize) -> Option<T>
    ensures { result ≡ (if nat_lt i count then slice_get table.now i else None) }
{
    if i < count {
        table.get(i).copied()
    } else {
        None
    }
}

impl Rule<'_> {
    /// Node i.
    pub fn node(&self, i: usize) -> Option<Node>
        ensures { result ≡ node_in self.now i }
    {
        entry(&self.nodes, self.count, i)
    }

    /// The declaration that node i's name means; at a declaration, what the name meant before it.
    pub fn meant(&self, i: usize) -> Option<usize>
        ensures { result ≡ meant_in self.now i }
    {
        entry(&self.contexts, self.count, i)?.means
    }

    /// The type of node i, if it is an expression that has one.
    pub fn type_of(&self, i: usize) -> Option<Ty>
        ensures { result ≡ type_in self.now i }
    {
        entry(&self.types, self.count, i)?
    }

    /// The place of the first cell of the variable i: among the fields, or among the cells of its call. 0 for any other node.
    // Kept: the definitions of places and bodies are numbers, 0 where there is none.
    pub fn place(&self, i: usize) -> u64
        ensures { result ≡ place_in self.now i }
    {
        entry(&self.contexts, self.count, i).map_or(0, |context| context.place)
    }

    /// The body block of the method i. 0 for any other node, as node 0 is no body.
    // Kept: as for places.
    pub fn body(&self, i: usize) -> usize
        ensures { result ≡ body_in self.now i }
    {
        entry(&self.bodies, self.count, i).unwrap_or(0)
    }
}
