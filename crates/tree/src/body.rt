// The nodes of a file, where there are 1 to 1,024.
ghost use Rattle.std.specs.Prelude.{◌≡◌, ◌<◌, ◌≤◌, false};
ghost use Rattle.std.specs.Option.{MatchOption};
ghost use Rattle.layout.specs.Head.{node_body};
ghost use Rattle.layout.specs.Readers.{file_of};
ghost use Rattle.nodes.specs.Kinds.{between};
ghost use Rattle.nodes.specs.Nodes.{count};

use layout::reader::Reader;

/// The most nodes that a file has.
pub(crate) const MOST_NODES: usize = 1024;

/// The nodes of a file that has 1 to 1,024, as one window, and how many they are.
// Kept: the window counts bytes, and `len` the nodes.
#[derive(Clone, Copy)]
pub(crate) struct Body<'a> {
    pub(crate) reader: Reader<'a>,
    pub(crate) nodes: &'a [u8],
    pub(crate) len: u16,
    ghost shown: { nodes.now ≡ node_body (file_of reader) },
    ghost counted: { len ≡ count (node_body (file_of reader)) },
    ghost some: { 0 < len },
    ghost few: { len ≤ 1024 },
}

impl<'a> Body<'a> {
    /// The nodes of the file that a reader is over; none where there are none, or too many.
    pub(crate) fn of(reader: &Reader<'a>) -> Option<Body<'a>>
        ensures { MatchOption result (between 1 1024 (count (node_body (file_of reader.now))) ≡ false) (λ b. b.reader ≡ reader.now) }
    {
        let n = reader.node_count();
        if n == 0 || n > MOST_NODES {
            return None;
        }
        Some(Body {
            reader: *reader,
            nodes: reader.node_body(),
            len: n as u16,
        })
    }
}
