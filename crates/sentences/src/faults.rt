// What a fault of the layout is called: the thing that it lies in, and what is wrong with it.
use crate::at::At;
use finding::Finding;
use layout::fault::FileFault;
use layout::items::Items;
use layout::reader::{Contents, Part, Reader};
use nodes::bytes::{byte, tail};
use nodes::fields::Value;
use nodes::kind::Kind;
use nodes::node::Node;
use texts::spelling::{is_identifier, is_string_text};
use wording::text::{Phrase, Piece, Sentence, Three};
use wording::{outline, words};

/// The sentence on a fault.
pub fn sentence<'a>(reader: Reader<'a>, finding: Finding<FileFault>) -> Sentence<'a> {
    let at = At::of(reader, finding.place);
    Sentence::two(subject(at, finding.cause), claim(at, finding.cause))
}

// What a fault lies in: a name, a string or a node, or the file as a whole.
fn subject<'a>(at: At<'a>, cause: FileFault) -> Phrase<'a> {
    let place = at.i;
    match cause {
        FileFault::FileSize | FileFault::Edition | FileFault::BodyOrder | FileFault::NodeCount => {
            Phrase::one(Piece::Words("the "))
        }
        FileFault::NameLength | FileFault::NameText | FileFault::NameRepeated => {
            Phrase::one(Piece::Number("name ", place as i64, " "))
        }
        FileFault::StringText => Phrase::one(Piece::Number("string ", place as i64, " ")),
        FileFault::NodeFields
        | FileFault::NodeSize
        | FileFault::NodeChildren
        | FileFault::NodeDepth => { node_place(at) }
    }
}

// A node by its number, its kind and its depth.
fn node_place<'a>(at: At<'a>) -> Phrase<'a> {
    let noun = match at.node() {
        Some(node) => words::noun(node.kind),
        None => "of no known kind",
    };
    let depth = outline::depth(at.nodes, at.i);
    Three(
        Piece::Number("node ", at.i as i64, ", "),
        Piece::Words(noun),
        Piece::count(" at depth ", depth, ", has "),
    )
}

// What is wrong with it.
fn claim<'a>(at: At<'a>, cause: FileFault) -> Phrase<'a> {
    let At {
        reader,
        i: place,
        ..
    } = at;
    match cause {
        FileFault::FileSize => Three(
            Piece::Words("file has "),
            words::file_size(reader.file()),
            Piece::Words(", and a rule file has 28 to 24576"),
        ),
        FileFault::Edition => Phrase::one(edition(reader.file())),
        FileFault::BodyOrder => misplaced(reader),
        FileFault::NodeCount => Phrase::one(miscounted(reader.contents().nodes.length)),
        FileFault::NameLength => Phrase::one(name_length(item_at(reader.names(), place))),
        FileFault::NameText => Phrase::one(name_text(reader.name(place).unwrap_or(&[]))),
        FileFault::NameRepeated => repeated(reader, place),
        FileFault::StringText => Phrase::one(string_text(item_at(reader.strings(), place))),
        FileFault::NodeFields => field(at),
        FileFault::NodeSize => size(at),
        FileFault::NodeChildren => children(at),
        FileFault::NodeDepth => Phrase::one(Piece::Words("no place there: 64 is the deepest")),
    }
}

fn edition<'a>(file: &'a [u8]) -> Piece<'a> {
    let head = &file[0..file.len().min(4)];
    Piece::Bytes(
        "file begins with ",
        head,
        ", and edition 1 with \\x01\\x00\\x00\\x00",
    )
}

// Where a body ends by the contents.
fn end(part: Part) -> i64 {
    part.offset as i64 + part.length as i64
}

// The first body that does not begin where the one before it ends, or else the file's end.
fn misplaced<'a>(reader: Reader<'a>) -> Phrase<'a> {
    let Contents {
        nodes,
        names,
        strings,
    } = reader.contents();
    let begins = [
        ("nodes begin at byte ", nodes, 28),
        ("names begin at byte ", names, end(nodes)),
        ("strings begin at byte ", strings, end(names)),
    ];
    let wrong = begins
        .into_iter()
        .find(|(_, part, wanted)| part.offset as i64 != *wanted);
    match wrong {
        Some((words, part, wanted)) => Phrase::two(
            Piece::Number(words, part.offset as i64, ""),
            Piece::Number(", but should begin at byte ", wanted, ""),
        ),
        None => Phrase::two(
            Piece::count("file ends at byte ", reader.file().len(), ""),
            Piece::Number(", but should end at byte ", end(strings), ""),
        ),
    }
}

fn miscounted<'a>(length: u32) -> Piece<'a> {
    let why = match length {
        0 => " bytes, and a rule has at least one node",
        1..=16384 => " bytes, which is no whole number of nodes of 16 bytes",
        _ => " bytes, which is more than 1024 nodes of 16 bytes",
    };
    Piece::Number("nodes take ", length as i64, why)
}

// Item `k` of a body, with its length byte.
fn item_at<'a>(mut items: Items<'a>, k: u32) -> &'a [u8] {
    items.nth(k as usize).unwrap_or(&[])
}

// Whether an item has as many bytes as its length byte says.
fn is_whole(item: &[u8]) -> bool {
    item.len() > byte(item, 0) as usize
}

// Why an item is refused that has a length that it may have.
fn over_or_cut(item: &[u8]) -> &'static str {
    if is_whole(item) {
        " bytes, and is the 256th, one too many"
    } else {
        " bytes, and is cut off before their end"
    }
}

fn name_length<'a>(item: &[u8]) -> Piece<'a> {
    let length = byte(item, 0);
    let why = if length == 0 || length > 31 {
        " bytes, and a name has 1 to 31"
    } else {
        over_or_cut(item)
    };
    Piece::Number("has ", length as i64, why)
}

// A name is refused if it is no identifier or if it is a keyword.
fn name_text<'a>(text: &'a [u8]) -> Piece<'a> {
    let why = if is_identifier(text) {
        "\", which is a keyword of the language"
    } else {
        "\", which is no identifier"
    };
    Piece::Bytes("is \"", text, why)
}

fn repeated<'a>(reader: Reader<'a>, k: u32) -> Phrase<'a> {
    let text = reader.name(k).unwrap_or(&[]);
    let lower = reader
        .names()
        .take(k as usize)
        .position(|item| tail(item) == text);
    let other = match lower {
        Some(lower) => Piece::count(", and so is name ", lower, ""),
        None => Piece::Words(", and so is a lower name"),
    };
    Phrase::two(Piece::Bytes("is \"", text, "\""), other)
}

fn string_text<'a>(item: &'a [u8]) -> Piece<'a> {
    let length = byte(item, 0);
    let text = tail(item);
    if length <= 63 && is_whole(item) && !is_string_text(text) {
        return Piece::Bytes(
            "is \"",
            text,
            "\", which holds a byte that no string may hold",
        );
    }
    let why = if length > 63 {
        " bytes, and a string has at most 63"
    } else {
        over_or_cut(item)
    };
    Piece::Number("has ", length as i64, why)
}

// The first field of a node's record that its kind does not allow.
fn field<'a>(at: At<'a>) -> Phrase<'a> {
    let record = at.record();
    let Some(node) = Node::decode(record) else {
        let kind = byte(record, 0) as i64;
        return Phrase::one(Piece::Number("the kind ", kind, ", which does not exist"));
    };
    let fields = node.kind.fields();
    if node.tag < fields.first || node.tag > fields.last {
        let tag = node.tag as i64;
        return Phrase::one(Piece::Number("the tag ", tag, ", which its kind does not allow"));
    }
    if let Some(why) = against_name(fields.named, node.name, at.reader.names().count()) {
        return Phrase::one(Piece::Number("the name number ", node.name as i64, why));
    }
    if let Some(at) = stray_byte(record) {
        return Phrase::two(
            Piece::count("the byte ", at, " set to "),
            Piece::Number("", byte(record, at) as i64, ", where 0 must stand"),
        );
    }
    Phrase::one(Piece::Number("the value ", node.value, against_value(fields.value)))
}

// What is wrong with the name number of a node that has a name or has none.
fn against_name(named: bool, name: u8, names: u32) -> Option<&'static str> {
    if named && name as u32 >= names {
        Some(", and the file has no such name")
    } else if !named && name != 0 {
        Some(", and its kind has no name")
    } else {
        None
    }
}

// Where the first byte is that is not zero, of those that always are.
fn stray_byte(record: &[u8]) -> Option<usize> {
    [3, 6, 7].into_iter().find(|at| byte(record, *at) != 0)
}

// What is wrong with a value that breaks the rule for values.
fn against_value(rule: Value) -> &'static str {
    match rule {
        Value::Zero => ", and its kind has no value",
        Value::Free => ", which its kind does not allow",
        Value::Typed => ", and a bool is 0 or 1",
        Value::StringNumber => ", and the file has no string of that number",
    }
}

fn size<'a>(at: At<'a>) -> Phrase<'a> {
    let size = outline::size_of(at.nodes, at.i) as i64;
    if at.i == 0 {
        let all = Piece::count(", and node 0 spans all ", at.reader.node_count(), " nodes");
        return Phrase::two(Piece::Number("the size ", size, ""), all);
    }
    if size == 0 {
        return Phrase::one(Piece::Words("the size 0, and a node spans itself at least"));
    }
    let parent = at.parent();
    Three(
        Piece::Number("the size ", size, ""),
        Piece::Number(", and its parent, node ", parent.i as i64, ""),
        Piece::count(", ends before node ", parent.end(), ""),
    )
}

fn children<'a>(at: At<'a>) -> Phrase<'a> {
    let kind = at.node().map_or(Kind::Program, |node| node.kind);
    if at.i == 0 && kind != Kind::Program {
        return Phrase::one(Piece::Words("the place of the program, and is none"));
    }
    Phrase::two(
        Piece::count(
            "children of a wrong kind, order or number, ",
            at.child_count(),
            " in all: it should have ",
        ),
        Piece::Words(words::children(kind)),
    )
}
