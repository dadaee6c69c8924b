// The children of a node: they fill the slots of its kind.
ghost use Rattle.std.specs.Prelude.{◌≡◌, map};
ghost use Rattle.std.specs.Option.{option_map};
ghost use Rattle.std.specs.Iterator.{YieldsFirst, item_count};
ghost use Rattle.layout.specs.Faults.{end_of, kind_byte, children_fit, bad_children};
ghost use Rattle.nodes.specs.Tree.{children};
ghost use Rattle.nodes.specs.Shapes.{filled, satisfied};
ghost use Rattle.tree.specs.Children.{kinds_left};

use layout::outline::{end_of, size_of};
use nodes::bytes::byte;
use nodes::kind::Kind;
use nodes::shape::{Slot, Times};

// The slots that are left when a child of a kind has gone into one; none where it fits nowhere.
fn left_after(slots: &[Slot], kind: u8) -> Option<&[Slot]>
    ensures { option_map (λ x. x.now) result ≡ filled slots.now kind }
{
    let (slot, rest) = slots.split_first()?;
    if slot.class.has(kind) {
        return match slot.times {
            Times::One | Times::Perhaps => Some(rest),
            Times::Many => Some(slots),
        };
    }
    match slot.times {
        Times::One => None,
        Times::Perhaps | Times::Many => left_after(rest, kind),
    }
}

// Whether no slot that is left asks for a child.
fn is_satisfied(slots: &[Slot]) -> bool
    ensures { result ≡ satisfied slots.now }
{
    slots.iter().all(|slot| !matches!(slot.times, Times::One))
}

// The kinds of a node's children, by number: the first child stands next to the node, each further one where the one before ends.
#[derive(Drop)]
struct ChildKinds<'a> {
    nodes: &'a [u8],
    next: usize,
    // where the last one ends
    stop: u32,
    // how many more are looked at: at most as many as the node spans nodes
    left: u16,
}

impl<'a> ChildKinds<'a> {
    // The kinds of the children of node i.
    fn of(nodes: &'a [u8], i: u16) -> ChildKinds<'a>
        ensures { kinds_left result ≡ map (kind_byte nodes.now) (children (end_of nodes.now) i) }
    {
        let size = size_of(nodes, u32::from(i));
        ChildKinds {
            nodes,
            next: i as usize + 1,
            stop: u32::from(i) + u32::from(size),
            left: size.saturating_sub(1),
        }
    }
}

impl Iterator for ChildKinds<'_> {
    type Item = u8;

    ghost next_gives = { YieldsFirst kinds_left };

    ghost remaining = { item_count kinds_left };

    fn next(&mut self) -> Option<u8> {
        if self.left == 0 || self.next >= self.stop as usize {
            return None;
        }
        let kind = byte(self.nodes, 16 * self.next);
        self.next = end_of(self.nodes, self.next as u32);
        self.left -= 1;
        Some(kind)
    }
}

// Whether the children of node i fill the slots of its kind.
fn do_children_fit(nodes: &[u8], i: u16) -> bool
    ensures { result ≡ children_fit nodes.now i }
{
    let Ok(kind) = Kind::try_from(byte(nodes, 16 * i as usize)) else {
        return false;
    };
    ChildKinds::of(nodes, i)
        .try_fold(kind.shape(), left_after)
        .is_some_and(is_satisfied)
}

/// Whether the children of node i are not as its kind asks, or node 0 is no program.
pub(crate) fn has_bad_children(nodes: &[u8], i: u16) -> bool
    ensures { result ≡ bad_children nodes.now i }
{
    !do_children_fit(nodes, i) || i == 0 && byte(nodes, 16 * i as usize) != u8::from(Kind::Program)
}
