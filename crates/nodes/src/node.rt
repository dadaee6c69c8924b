// A node as its record of 16 bytes shows it.
ghost use Rattle.std.specs.Prelude.{◌≡◌};
ghost use Rattle.nodes.specs.Nodes.{decoded};

use crate::bytes::{byte, i64_at, u16_at};
use crate::kind::Kind;

/// The fields of a node: what the tag, the name and the value mean depends on the kind.
#[derive(Clone, Copy, PartialEq, Eq, Debug)]
pub struct Node {
    pub kind: Kind,
    pub tag: u8,
    /// the number of a name
    pub name: u8,
    /// how many nodes it spans: itself and all below it
    pub size: u16,
    pub value: i64,
}

impl Node {
    /// The node that a record shows; none where its kind is unknown.
    #[tactic(auto, using(crate::proofs::Naming::ok_named))]
    pub fn decode(bytes: &[u8]) -> Option<Node>
        ensures { result ≡ decoded bytes.now }
    {
        let kind = Kind::try_from(byte(bytes, 0)).ok()?;
        Some(Node {
            kind,
            tag: byte(bytes, 1),
            name: byte(bytes, 2),
            size: u16_at(bytes, 4),
            value: i64_at(bytes, 8),
        })
    }
}
