// A node of a file, and what the nodes around it say of it.
use layout::reader::Reader;
use nodes::kind::Kind;
use nodes::node::Node;
use std::iter;
use wording::outline;
use wording::words::MOST_NODES;

/// A node of a file of any bytes, by its number, with the body of all nodes, which is found once.
#[derive(Clone, Copy)]
pub(crate) struct At<'a> {
    pub(crate) reader: Reader<'a>,
    pub(crate) nodes: &'a [u8],
    pub(crate) i: u32,
}

// The node at a place in a body of nodes; none where there is no such node, or its kind is unknown.
fn node_in(nodes: &[u8], i: usize) -> Option<Node> {
    Node::decode(nodes.as_chunks::<16>().0.get(i)?)
}

impl<'a> At<'a> {
    /// Node `i` of a file.
    pub(crate) fn of(reader: Reader<'a>, i: u32) -> At<'a> {
        At {
            reader,
            nodes: reader.node_body(),
            i,
        }
    }

    /// Another node of the file.
    pub(crate) fn other(self, i: u32) -> At<'a> {
        At {
            reader: self.reader,
            nodes: self.nodes,
            i,
        }
    }

    /// The node itself; none where there is no such node, or its kind is unknown.
    pub(crate) fn node(self) -> Option<Node> {
        node_in(self.nodes, self.i as usize)
    }

    /// Its record, which is empty where there is no such node.
    pub(crate) fn record(self) -> &'a [u8] {
        self.reader.record(self.i as usize).unwrap_or(&[])
    }

    /// One past the last node that it spans.
    pub(crate) fn end(self) -> usize {
        outline::end_of(self.nodes, self.i)
    }

    /// The innermost node that it lies in.
    pub(crate) fn parent(self) -> At<'a> {
        self.other(outline::parent(self.nodes, self.i))
    }

    // The node, where it is a method.
    fn method(self) -> Option<Node> {
        self.node().filter(|node| node.kind == Kind::Method)
    }

    /// The innermost method that it lies in.
    pub(crate) fn method_around(self) -> Option<Node> {
        (0..self.i)
            .rev()
            .map(|j| self.other(j))
            .filter(|lower| (self.i as usize) < lower.end())
            .find_map(|lower| lower.method())
    }

    // Whether it declares the name.
    fn declares(self, name: u8) -> bool {
        self.node()
            .is_some_and(|node| node.kind.declares_name() && node.name == name)
    }

    // The node whose scope a declaration stands in: its parent, but of a method's body block the method.
    fn scope(self) -> u32 {
        let parent = self.parent();
        let above = parent.parent();
        if parent.method().is_none() && above.method().is_some() {
            above.i
        } else {
            parent.i
        }
    }

    /// The lowest node that declares the name of a declaration in its scope, if a lower one does.
    pub(crate) fn lower_namesake(self) -> Option<u32> {
        let name = self.node()?.name;
        let scope = self.scope();
        (0..self.i).find(|j| {
            let lower = self.other(*j);
            lower.declares(name) && lower.scope() == scope
        })
    }

    /// The lowest node that declares the name of a node, in whatever scope.
    pub(crate) fn first_declaring(self) -> Option<u32> {
        let name = self.node()?.name;
        (0..MOST_NODES).find(|j| self.other(*j).declares(name))
    }

    /// How many children it has by the sizes. No more are counted than a rule has nodes, so that sizes of 0 do no harm.
    pub(crate) fn child_count(self) -> usize {
        let nodes = self.nodes;
        let end = self.end();
        // The place of a child and where it ends, so that each is read once.
        let child_at = |child: usize| {
            let size = node_in(nodes, child)?.size;
            Some((child, child.saturating_add(size as usize)))
        };
        iter::successors(child_at(self.i as usize + 1), |(_, next)| child_at(*next))
            .take_while(|(child, _)| *child < end)
            .take(MOST_NODES as usize)
            .count()
    }
}
