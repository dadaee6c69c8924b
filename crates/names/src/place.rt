// Where a node stands: its parent, its scope, its context.
ghost use Rattle.std.specs.Prelude.{◌≡◌, ◌<◌, length};
ghost use Rattle.node_rules.specs.Tables.{node, kind_at, end};
ghost use Rattle.node_rules.specs.Scopes.{scope_in};
ghost use Rattle.names.specs.Walk.{Child, inherited};

use crate::nested::Nodes;
use node_rules::context::Context;
use nodes::kind::Kind;
use nodes::node::Node;

/// A node that has a parent, in its place.
#[derive(Clone, Copy)]
pub(crate) struct Place<'n> {
    pub nodes: Nodes<'n>,
    pub i: usize,
    pub parent: usize,
    pub ghost inside: { i < length nodes.list.now },
    pub ghost child: { Child (end nodes.list.now) parent i },
}

impl Place<'_> {
    /// The node.
    pub(crate) fn node(self) -> Node
        ensures { result ≡ node self.entry.nodes.list.now self.entry.i }
    {
        self.nodes.node(self.i)
    }

    // The scope of a declaration here: the parent, or the method of which that is the body block.
    fn scope(self, outer: usize) -> usize
        ensures { result ≡ scope_in self.entry.nodes.list.now self.entry.parent outer }
    {
        let is_body = self.nodes.node(self.parent).kind == Kind::Block
            && self.nodes.node(outer).kind == Kind::Method;
        if is_body { outer } else { self.parent }
    }

    /// The context of the node, by its parent's, what its name means and where its cells begin.
    pub(crate) fn context(self, outer: Context, means: Option<usize>, cell: u64) -> Context
        ensures { result ≡ inherited (kind_at self.entry.nodes.list.now self.entry.parent) outer self.entry.parent (scope_in self.entry.nodes.list.now self.entry.parent outer.parent) means cell }
    {
        let kind = self.nodes.node(self.parent).kind;
        Context {
            parent: self.parent,
            scope: self.scope(outer.parent),
            method: if kind == Kind::Method {
                self.parent
            } else {
                outer.method
            },
            looped: kind.is_loop() || outer.looped,
            means,
            place: cell,
        }
    }
}
