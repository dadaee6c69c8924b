// Whether a rule has a method to begin with: a void method main without parameters.
ghost use Rattle.std.specs.Prelude.{◌≡◌, codes};
ghost use Rattle.layout.specs.Items.{names, text_at};
ghost use Rattle.layout.specs.Readers.{file_of};
ghost use Rattle.node_rules.specs.Tables.{spells, is_main, has_main};

use layout::reader::Reader;
use names::nested::Nodes;
use nodes::kind::Kind;

/// The tag of a method that gives no value.
const VOID: u8 = 0;

// Whether the name of this number is main.
fn is_called_main(reader: &Reader, name: u8) -> bool
    ensures { result ≡ spells (codes "main") (text_at (names (file_of reader.now)) name) }
{
    reader
        .name(name as u32)
        .is_some_and(|text| text == b"main".as_slice())
}

// Whether node m is a void method main without parameters: these would follow it.
fn is_main(reader: &Reader, nodes: Nodes<'_>, m: usize) -> bool
    ensures { result ≡ is_main nodes.entry.list.now (names (file_of reader.now)) m }
{
    let node = nodes.node(m);
    node.kind == Kind::Method
        && node.tag == VOID
        && nodes.node(m.saturating_add(1)).kind != Kind::Parameter
        && is_called_main(reader, node.name)
}

/// Whether a void method main without parameters is among the program's children.
pub(crate) fn has_main(reader: &Reader, nodes: Nodes<'_>) -> bool
    ensures { result ≡ has_main nodes.entry.list.now (names (file_of reader.now)) }
{
    nodes.children(0).any(|m| is_main(reader, nodes, m))
}
