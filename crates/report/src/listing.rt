// The listing of a file: its length, its contents, its names and strings, and its nodes as an indented tree.
//
// A damaged file is listed as far as it goes. The listing of a rule tells types and declarations too.
use crate::verdict::{Found, Verdict};
use layout::items::Items;
use layout::reader::{Part, Reader};
use nodes::bytes::{tail, u16_at};
use std::fmt;
use wording::text::{Phrase, Piece, Shown};
use wording::words::MOST_NODES;
use wording::{outline, words};

/// The deepest that a line is indented: as deep as a node may lie.
const MOST_DEPTH: usize = 64;

/// All that a file of any bytes holds, line by line, with what the verdict on it tells of its nodes.
#[derive(Drop)]
pub struct Listing<'v, 'a, G, R>(pub &'v Verdict<'a, G, R>);

// Sentences name the line of a node, by `words::node_line`: a line more or less above the nodes is to be counted there.
impl<G: Found, R> fmt::Display for Listing<'_, '_, G, R> {
    fn fmt<W: fmt::Write>(&self, f: &mut fmt::Formatter<W>) -> fmt::Result {
        let reader = self.0.reader();
        let contents = reader.contents();
        let size = words::file_size(reader.file());
        let nodes = part_words("  nodes: offset ", contents.nodes);
        let names = part_words("  names: offset ", contents.names);
        let strings = part_words("  strings: offset ", contents.strings);
        write!(f, "{size}\ncontents:\n{nodes}{names}{strings}")?;
        write!(
            f,
            "names:\n{}strings:\n{}",
            Texts(reader.names(), ""),
            Texts(reader.strings(), "\"")
        )?;
        write!(f, "nodes:\n{}{}", Nodes(self.0), not_shown(reader))
    }
}

fn part_words<'a>(words: &'static str, part: Part) -> Phrase<'a> {
    let offset = Piece::Number(words, part.offset as i64, "");
    Phrase::two(offset, Piece::Number(", length ", part.length as i64, "\n"))
}

// The texts of items, each with its number and between two quotes or none.
#[derive(Drop)]
struct Texts<'a>(Items<'a>, &'static str);

impl fmt::Display for Texts<'_> {
    fn fmt<W: fmt::Write>(&self, f: &mut fmt::Formatter<W>) -> fmt::Result {
        let Texts(items, quote) = *self;
        for (k, item) in items.enumerate() {
            writeln!(f, "  {k:>3} {quote}{}{quote}", Shown(tail(item)))?;
        }
        Ok(())
    }
}

#[derive(Drop)]
struct Nodes<'v, 'a, G, R>(&'v Verdict<'a, G, R>);

impl<G: Found, R> fmt::Display for Nodes<'_, '_, G, R> {
    fn fmt<W: fmt::Write>(&self, f: &mut fmt::Formatter<W>) -> fmt::Result {
        let reader = self.0.reader();
        let records = (0..MOST_NODES).map_while(|i| Some((i, reader.record(i as usize)?)));
        for (i, record) in records {
            let indent = indentation(reader, i);
            let (word, details) = words::node_words(reader, record);
            let marks = self.0.marks(i);
            let spans = span_words(record);
            writeln!(f, "  {i:>4} {:indent$}{word}{details}{marks}{spans}", "")?;
        }
        Ok(())
    }
}

// How many nodes a node spans, unless it is itself alone.
fn span_words<'a>(record: &[u8]) -> Piece<'a> {
    let size = u16_at(record, 4);
    if size == 1 {
        return Piece::default();
    }
    Piece::Number(", spans ", size as i64, "")
}

// Two spaces for each node above it.
fn indentation(reader: Reader, i: u32) -> usize {
    2 * outline::depth(reader.node_body(), i)
        .min(MOST_DEPTH)
        .saturating_sub(1)
}

// The nodes that the contents claim, beyond those that are listed.
fn not_shown<'a>(reader: Reader<'a>) -> Piece<'a> {
    let claimed = reader.contents().nodes.length as usize / 16;
    let shown = reader.node_count().min(MOST_NODES as usize);
    if claimed > shown {
        Piece::count(
            "  ",
            claimed - shown,
            " more nodes that the contents claim are not shown\n",
        )
    } else {
        Piece::default()
    }
}
