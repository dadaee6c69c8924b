// A walk over the nodes, with a stack of the nodes around.
ghost use Rattle.std.specs.Prelude.{◌≡◌, ℕ, ◌+◌, ◌-◌, ◌<◌, ◌≤◌, ◌||◌, length, map, nat_le, nat_lt, slice_index};
ghost use Rattle.std.specs.Iterator.{YieldsFirst, item_count};
ghost use Rattle.std.specs.List.{range_with_len};
ghost use Rattle.layout.specs.Faults.{end_of};
ghost use Rattle.nodes.specs.Tree.{parent};

use crate::body::{Body, MOST_NODES};
use layout::outline::end_of;

/// A node on the walk: where it ends, where its parent ends, and how deep it lies where no size is at fault.
#[derive(Clone, Copy, PartialEq, Eq, Debug)]
pub(crate) struct Met {
    pub(crate) node: u16,
    stop: usize,
    limit: usize,
    pub(crate) depth: usize,
}

impl Met {
    /// Whether the node spans nothing, or reaches past its parent's end.
    pub(crate) fn is_out(&self) -> bool
        ensures { result ≡ (nat_le self.now.stop self.now.node || nat_lt self.now.limit self.now.stop) }
    {
        self.stop <= self.node as usize || self.limit < self.stop
    }
}

/// A walk over the nodes after node 0, in their order. Node 0 is at the bottom of the stack, and above each node is one that has it
/// for its parent. No node above the top one and below the next spans the next.
// Kept: a check cannot fail for memory, so the stack is an array of the most nodes. Node 0 never leaves it, so its top is always a place,
// which push and pop would have as a number that may be 0.
#[derive(Drop)]
pub(crate) struct Walk<'a> {
    body: Body<'a>,
    next: u16,
    stack: [u16; MOST_NODES],
    top: usize,
    // Kept: how far the top node spans, which is asked at each step, and is known where a node is met.
    limit: usize,
    ghost within: { next ≤ body.len },
    ghost slots: { length stack ≡ 1024 },
    ghost room: { top < next },
    ghost bottom: { slice_index stack 0 ≡ 0 },
    ghost rising: { (k : ℕ) → k < top → slice_index stack k < slice_index stack (k + 1) },
    ghost upward: { (k : ℕ) → k < top → slice_index stack k ≡ parent (end_of body.nodes.now) (slice_index stack (k + 1)) },
    ghost lower: { slice_index stack top < next },
    ghost told: { limit ≡ end_of body.nodes.now (slice_index stack top) },
    ghost past: { (k : ℕ) → slice_index stack top < k → k < next → end_of body.nodes.now k ≤ next },
}

impl<'a> Walk<'a> {
    ghost use Rattle.tree.specs.Walk.{ahead, met_at};

    /// A walk over the nodes of a body.
    pub(crate) fn over(body: Body<'a>) -> Walk<'a>
        ensures { ahead result ≡ map (met_at (end_of body.entry.nodes.now)) (range_with_len 1 (body.entry.len - 1)) }
    {
        Walk {
            body,
            next: 1,
            // Kept: as at the struct.
            stack: [0; MOST_NODES],
            top: 0,
            limit: end_of(body.nodes, 0),
        }
    }

    // Leaves the nodes that do not span the next one. The top one is then its parent.
    // Kept: how far the top goes down is known only on the way, so no range or iterator says it.
    fn close(&mut self)
        ensures parent { slice_index self.new.stack self.new.top ≡ parent (end_of self.new.body.nodes.now) self.new.next }
        ensures body { self.new.body ≡ self.old.body }
        ensures next { self.new.next ≡ self.old.next }
    {
        while self.top > 0 && self.limit <= self.next as usize {
            self.top -= 1;
            self.limit = end_of(self.body.nodes, u32::from(self.stack[self.top]));
        }
    }
}

impl Iterator for Walk<'_> {
    type Item = Met;

    ghost use Rattle.tree.specs.Walk.{ahead};

    ghost next_gives = { YieldsFirst ahead };

    ghost remaining = { item_count ahead };

    fn next(&mut self) -> Option<Met> {
        if self.next == self.body.len {
            return None;
        }
        self.close();
        let node = self.next;
        let limit = self.limit;
        let stop = end_of(self.body.nodes, u32::from(node));
        self.top += 1;
        self.stack[self.top] = node;
        self.limit = stop;
        self.next += 1;
        Some(Met {
            node,
            stop,
            limit,
            depth: self.top + 1,
        })
    }
}
