// The nodes of a file as a table.
ghost use Rattle.std.specs.Prelude.{◌≡◌, ◌≤◌, if◌then◌else◌, length, take, unwrap_or, nat_lt};
ghost use Rattle.layout.specs.Head.{node_body};
ghost use Rattle.layout.specs.Readers.{file_of};
ghost use Rattle.nodes.specs.Nodes.{count, node_at};
ghost use Rattle.node_rules.specs.Tables.{blank, nodes_of};

use crate::MOST_NODES;
use crate::nested::BLANK;
use layout::reader::Reader;
use nodes::node::Node;
use std::array;

// Node i of a file that has so many; past these a blank one, for which nothing is decoded.
fn node_within(reader: &Reader, count: usize, i: usize) -> Node
    ensures { result ≡ (if nat_lt i count then unwrap_or (node_at (node_body (file_of reader.now)) i) blank else blank) }
{
    if i < count {
        reader.node(i).unwrap_or(BLANK)
    } else {
        BLANK
    }
}

/// The nodes of a file, each decoded once.
pub(crate) fn decode_nodes(reader: &Reader) -> [Node; MOST_NODES]
    requires { count (node_body (file_of reader.now)) ≤ 1024 }
    ensures nodes { take (count (node_body (file_of reader.now))) result ≡ nodes_of (file_of reader.now) }
    ensures long { length result ≡ 1024 }
{
    let count = reader.node_count();
    array::from_fn(|i| node_within(reader, count, i))
}
