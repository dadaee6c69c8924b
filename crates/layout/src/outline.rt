// Where a node ends and which nodes it lies in, by the sizes alone.
//
// Proved: these are the end, the depth and the parent that the definitions of the format give. A body of nodes may be
// damaged: past its end every size reads as 0, so there is an answer for every node number.
// Kept: a body and a node's number are all that each call needs, and nothing holds of the two; who asks more of a node has a struct of its own.
ghost use Rattle.std.specs.Prelude.{◌≡◌, ◌+◌, ◌*◌, ◌≤◌, length, unwrap_or, nat_lt};
ghost use Rattle.nodes.specs.Bytes.{le16};
ghost use Rattle.layout.specs.Faults.{end_of};
ghost use Rattle.nodes.specs.Tree.{around, depth, parent};

use nodes::bytes::byte;

/// How many nodes node `i` spans: itself and all below it.
pub fn size_of(nodes: &[u8], i: u32) -> u16
    ensures { result ≡ le16 nodes.now (16 * i + 4) }
{
    let at = 16 * i as usize + 4;
    u16::from_le_bytes([byte(nodes, at), byte(nodes, at + 1)])
}

/// Where node `i` ends: one past the last node that it spans.
#[tactic(auto, unfolding(crate::specs::Faults::end_of))]
pub fn end_of(nodes: &[u8], i: u32) -> usize
    ensures { result ≡ end_of nodes.now i }
{
    i as usize + size_of(nodes, i) as usize
}

// Whether node `j` spans node `i`, where it is no higher.
fn spans(nodes: &[u8], j: u32, i: u32) -> bool
    ensures { result ≡ nat_lt i (end_of nodes.now j) }
{
    (i as usize) < end_of(nodes, j)
}

// How many nodes below `n` span node `i`.
// Kept: a loop, since `filter` and `count` over the range took a seventh more instructions, and a listing asks this for every line.
#[tactic(auto, using(crate::proofs::Spanning::spanning_too, crate::proofs::Spanning::not_spanning_too))]
fn count_below(nodes: &[u8], n: u32, i: u32) -> usize
    ensures counted { result ≡ length (around (end_of nodes.now) i n) }
    ensures few { result ≤ n }
{
    let mut lower: usize = 0;
    for j in 0..n {
        if spans(nodes, j, i) {
            lower += 1;
        }
    }
    lower
}

// How many nodes up to and including `last` span node `i`.
// Kept: the last node is asked by itself, since a range that includes its end makes three tests at each step.
#[tactic(auto, using(crate::proofs::Spanning::spanning_too, crate::proofs::Spanning::not_spanning_too))]
fn count_spanning(nodes: &[u8], last: u32, i: u32) -> usize
    ensures { result ≡ length (around (end_of nodes.now) i (last + 1)) }
{
    let lower = count_below(nodes, last, i);
    if spans(nodes, last, i) {
        lower + 1
    } else {
        lower
    }
}

/// How many nodes up to and including `i` span it: node 0 has depth 1.
#[tactic(auto, unfolding(nodes::specs::Tree::depth))]
pub fn depth(nodes: &[u8], i: u32) -> usize
    ensures { result ≡ depth (end_of nodes.now) i }
{
    count_spanning(nodes, i, i)
}

// The highest lower node that spans node `i`, if one does.
fn innermost(nodes: &[u8], i: u32) -> Option<u32>
    ensures { unwrap_or result 0 ≡ parent (end_of nodes.now) i }
{
    (0..i).rfind(|j| spans(nodes, *j, i))
}

/// The innermost lower node that spans node `i`; 0 where there is none.
// Kept: the definitions of parents give 0 there, node 0 being around all others.
pub fn parent(nodes: &[u8], i: u32) -> u32
    ensures { result ≡ parent (end_of nodes.now) i }
{
    innermost(nodes, i).unwrap_or(0)
}
