// What names mean: the nodes of a rule file, each with where it stands and what its name means there.
//
// Proved of `resolve`, whatever the bytes: it refuses a file with exactly the first fault of its layout, or gives the file's nodes, and for
// every node exactly its context as the definitions of scopes give it: its parent, its method, whether it is in a loop, the declaration
// that its name means there, and a variable's place among the cells. Not looked at here: types, and the rules.
#![tactic(auto)]

ghost use Rattle.std.specs.Prelude.{◌≡◌, ◌≤◌, None};
ghost use Rattle.layout.specs.Head.{node_body};
ghost use Rattle.layout.specs.Readers.{file_of};
ghost use Rattle.nodes.specs.Nodes.{count};
ghost use Rattle.rule_file.specs.Verdict.{first_fault};
ghost use Rattle.names.specs.Resolved.{NamesTold, Resolving};

use decode::decode_nodes;
use finding::Finding;
use layout::fault::FileFault;
use layout::reader::Reader;
use nested::Nodes;
use node_rules::context::Context;
use nodes::node::Node;
use rule_file::examine;
use walk::find_contexts;

mod decode;
mod lookup;
pub mod nested;
mod place;
mod walk;

/// The most nodes that a rule has.
pub const MOST_NODES: usize = 1024;

/// The nodes of a file without a fault, and their contexts: the first `count` of each.
// Kept: resolving cannot fail for memory, so the tables are arrays of the most nodes with a count; and the nodes are lent as one slice,
// which an array of one struct for each node could not give.
#[derive(Drop)]
pub struct Resolved<'f> {
    pub reader: Reader<'f>,
    pub count: usize,
    pub nodes: [Node; MOST_NODES],
    pub contexts: [Context; MOST_NODES],
}

// The nodes of a file without a fault, and what their names mean.
fn tell_names<'f>(reader: Reader<'f>) -> Resolved<'f>
    requires faultless { first_fault (file_of reader) ≡ None }
    requires few { count (node_body (file_of reader)) ≤ 1024 }
    ensures { NamesTold result (file_of reader.entry) }
{
    let count = reader.node_count();
    let nodes = decode_nodes(&reader);
    let contexts = find_contexts(Nodes {
        list: &nodes[..count],
    });
    Resolved {
        reader,
        count,
        nodes,
        contexts,
    }
}

/// Tells what every name of a rule file means, or the file's first fault.
pub fn resolve(file: &[u8]) -> Result<Resolved<'_>, Finding<FileFault>>
    ensures { Resolving result file.now }
{
    let reader = examine(file)?;
    Ok(tell_names(reader))
}
