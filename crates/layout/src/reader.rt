// The reader over a lent file.
//
// Proved: every call gives exactly the window, the number or the fields that the definitions of the format give for the
// file's bytes, whatever these are. Not promised: that what is shown of a file with a fault makes sense.
ghost use Rattle.std.specs.Prelude.{◌≡◌, ◌≤◌, length};
ghost use Rattle.layout.specs.Head.{contents, part, body_at, node_body, name_body, string_body};
ghost use Rattle.layout.specs.Items.{names, strings, text_at};
ghost use Rattle.nodes.specs.Nodes.{count, node_record, node_at};
ghost use Rattle.layout.specs.Readers.{file_of, pending, Shows};

use crate::items::Items;
use nodes::bytes::{cut, u32_at};
use nodes::node::Node;

/// Where a body lies in the file, as the contents tell it.
#[derive(Clone, Copy, PartialEq, Eq, Debug)]
pub struct Part {
    pub offset: u32,
    pub length: u32,
}

/// The contents of a file: where its three bodies lie.
#[derive(Clone, Copy, PartialEq, Eq, Debug)]
pub struct Contents {
    pub nodes: Part,
    pub names: Part,
    pub strings: Part,
}

/// A reader over a lent file of any bytes. It copies nothing: names, strings and node records are windows of the file.
#[derive(Clone, Copy, PartialEq, Eq, Debug)]
pub struct Reader<'a> {
    file: &'a [u8],
}

impl<'a> Reader<'a> {
    /// A reader over the file.
    pub fn over(file: &'a [u8]) -> Reader<'a>
        ensures { file_of result ≡ file.now }
    {
        Reader { file }
    }

    /// The file itself.
    pub fn file(&self) -> &'a [u8]
        ensures { result.now ≡ file_of self.now }
    {
        self.file
    }

    /// The contents as the head tells them, true or not.
    pub fn contents(&self) -> Contents
        ensures { result ≡ contents (file_of self.now) }
    {
        Contents {
            nodes: part_at(self.file, 4),
            names: part_at(self.file, 12),
            strings: part_at(self.file, 20),
        }
    }

    /// The node records, as one window.
    pub fn node_body(&self) -> &'a [u8]
        ensures { result.now ≡ node_body (file_of self.now) }
    {
        body_at(self.file, 4)
    }

    // The names with their length bytes, as one window.
    // Kept: the three bodies differ by one number, and each is one line over `body_at`.
    fn name_body(&self) -> &'a [u8]
        ensures { result.now ≡ name_body (file_of self.now) }
    {
        body_at(self.file, 12)
    }

    // The strings with their length bytes, as one window.
    // Kept: one line over `body_at`, as for the names.
    fn string_body(&self) -> &'a [u8]
        ensures { result.now ≡ string_body (file_of self.now) }
    {
        body_at(self.file, 20)
    }

    /// How many whole node records there are.
    pub fn node_count(&self) -> usize
        ensures { result ≡ count (node_body (file_of self.now)) }
    {
        self.node_body().len() / 16
    }

    /// The 16 bytes of node `i`.
    pub fn record(&self, i: usize) -> Option<&'a [u8]>
        ensures { Shows result (node_record (node_body (file_of self.now)) i) }
    {
        record_of(self.node_body(), i)
    }

    /// The fields of node `i`; none where there is no such node or its kind is unknown.
    pub fn node(&self, i: usize) -> Option<Node>
        ensures { result ≡ node_at (node_body (file_of self.now)) i }
    {
        Node::decode(self.record(i)?)
    }

    /// The names, each with its length byte.
    pub fn names(&self) -> Items<'a>
        ensures { pending result ≡ names (file_of self.now) }
    {
        Items::of(self.name_body())
    }

    /// The strings, each with its length byte.
    // Kept: names and strings are read by name, each call one line over the items of its body.
    pub fn strings(&self) -> Items<'a>
        ensures { pending result ≡ strings (file_of self.now) }
    {
        Items::of(self.string_body())
    }

    /// The bytes of name `k`.
    pub fn name(&self, k: u32) -> Option<&'a [u8]>
        ensures { Shows result (text_at (names (file_of self.now)) k) }
    {
        self.names().text(k)
    }

    /// The bytes of string `k`.
    // Kept: one line over the items of its body, as for the names.
    pub fn string(&self, k: u32) -> Option<&'a [u8]>
        ensures { Shows result (text_at (strings (file_of self.now)) k) }
    {
        self.strings().text(k)
    }
}

// The pair of the contents that begins at a byte.
fn part_at(file: &[u8], at: u32) -> Part
    requires { at ≤ 20 }
    ensures { result ≡ part file.now at }
{
    Part {
        offset: u32_at(file, at),
        length: u32_at(file, at + 4),
    }
}

// The window that the pair at a byte tells.
#[tactic(auto, unfolding(crate::specs::Head::body_at))]
fn body_at(file: &[u8], at: u32) -> &[u8]
    requires { at ≤ 20 }
    ensures { result.now ≡ body_at file.now at }
{
    let part = part_at(file, at);
    cut(file, part.offset, part.length)
}

// The record of node i in a body of nodes.
fn record_of(nodes: &[u8], i: usize) -> Option<&[u8]>
    ensures { Shows result (node_record nodes.now i) }
{
    if i >= nodes.len() / 16 {
        return None;
    }
    Some(&nodes[16 * i..16 * i + 16])
}
