// The nodes of a rule, each within its parent: where a node ends, and its children.
ghost use Rattle.std.specs.Prelude.{◌≡◌, ◌≤◌, length};
ghost use Rattle.std.specs.Iterator.{YieldsFirst, item_count};
ghost use Rattle.node_rules.specs.Tables.{node, end, parts};
ghost use Rattle.names.specs.Walk.{Nested, kin};

use nodes::kind::Kind;
use nodes::node::Node;

/// What stands past the last node: a node that spans nothing.
// Kept: the definitions read this node there, so a node is always one.
pub(crate) const BLANK: Node = Node {
    kind: Kind::Program,
    tag: 0,
    name: 0,
    size: 0,
    value: 0,
};

/// The nodes of a rule: a program, and each node within its parent.
#[derive(Clone, Copy)]
pub struct Nodes<'n> {
    pub list: &'n [Node],
    pub ghost nested: { Nested list.now },
}

/// Children of a node: those from `next` on, up to where their parent ends.
#[derive(Clone, Copy)]
pub struct Children<'n> {
    pub nodes: Nodes<'n>,
    pub next: usize,
    pub stop: usize,
    pub ghost inside: { stop ≤ length nodes.list.now },
}

impl<'n> Nodes<'n> {
    /// Node i; a blank one past the last.
    pub fn node(self, i: usize) -> Node
        ensures { result ≡ node self.entry.list.now i }
    {
        self.list.get(i).copied().unwrap_or(BLANK)
    }

    /// One past the last node that node i spans.
    pub fn end(self, i: usize) -> usize
        ensures { result ≡ end self.entry.list.now i }
    {
        i + self.node(i).size as usize
    }

    /// The children of node i, in order.
    #[tactic(auto, using(crate::proofs::Kinship::kin_all))]
    pub fn children(self, i: usize) -> Children<'n>
        ensures { kin result.nodes.list.now result.next result.stop ≡ parts self.entry.list.now i }
    {
        Children {
            nodes: self,
            next: i.saturating_add(1),
            stop: self.end(i).min(self.list.len()),
        }
    }
}

impl Iterator for Children<'_> {
    type Item = usize;

    ghost next_gives = { YieldsFirst (λ s. kin s.nodes.list.now s.next s.stop) };

    ghost remaining = { item_count (λ s. kin s.nodes.list.now s.next s.stop) };

    #[tactic(auto, using(crate::proofs::Kinship::kin_none, crate::proofs::Kinship::kin_more))]
    fn next(&mut self) -> Option<usize> {
        if self.next >= self.stop {
            return None;
        }
        let child = self.next;
        self.next = self.nodes.end(child);
        Some(child)
    }
}
