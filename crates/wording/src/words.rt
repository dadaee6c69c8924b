// Words for what a rule file holds: kinds, tags, names and strings.
// Kept: a node is a plain value, and only the text of a name or a string is asked of its file.
use crate::text::{Phrase, Piece, Three};
use layout::reader::Reader;
use nodes::bytes::byte;
use nodes::fields::Value;
use nodes::kind::Kind;
use nodes::node::Node;

/// The most bytes that a rule file has.
pub const MOST_BYTES: usize = 24576;

/// The most nodes that a rule has.
pub const MOST_NODES: u32 = 1024;

/// How long a file is, as far as it is read: to one byte past the most that a rule file has.
pub fn file_size<'a>(file: &[u8]) -> Piece<'a> {
    if file.len() > MOST_BYTES {
        return Piece::Words("more than 24576 bytes");
    }
    Piece::count("", file.len(), " bytes")
}

// The word with which the listing begins a node of the kind.
fn word(kind: Kind) -> &'static str {
    match kind {
        Kind::Program => "program",
        Kind::Import => "import",
        Kind::ScalarDeclaration | Kind::ArrayDeclaration => "declare",
        Kind::Method => "method",
        Kind::Parameter => "parameter",
        Kind::Block => "block",
        Kind::Assignment => "assignment",
        Kind::Step => "step",
        Kind::CallStatement => "call statement",
        Kind::If => "if",
        Kind::For => "for",
        Kind::While => "while",
        Kind::Return => "return",
        Kind::Break => "break",
        Kind::Continue => "continue",
        Kind::ScalarLocation => "location",
        Kind::ArrayLocation => "element",
        Kind::Literal => "literal",
        Kind::Unary => "unary",
        Kind::Cast => "cast",
        Kind::Call => "call",
        Kind::Len => "len",
        Kind::Binary => "binary",
        Kind::Text => "string",
    }
}

/// What a sentence calls a node of the kind.
pub fn noun(kind: Kind) -> &'static str {
    match kind {
        Kind::Program => "a program",
        Kind::Import => "an import",
        Kind::ScalarDeclaration => "a scalar declaration",
        Kind::ArrayDeclaration => "an array declaration",
        Kind::Method => "a method",
        Kind::Parameter => "a parameter",
        Kind::Block => "a block",
        Kind::Assignment => "an assignment",
        Kind::Step => "a step",
        Kind::CallStatement => "a call statement",
        Kind::If => "an if",
        Kind::For => "a for",
        Kind::While => "a while",
        Kind::Return => "a return",
        Kind::Break => "a break",
        Kind::Continue => "a continue",
        Kind::ScalarLocation => "a scalar location",
        Kind::ArrayLocation => "an array location",
        Kind::Literal => "a literal",
        Kind::Unary => "a unary operation",
        Kind::Cast => "a cast",
        Kind::Call => "a call",
        Kind::Len => "a len",
        Kind::Binary => "a binary operation",
        Kind::Text => "a string",
    }
}

/// What children a node of the kind has.
pub fn children(kind: Kind) -> &'static str {
    match kind {
        Kind::Program => "imports, then declarations, then methods",
        Kind::Method => "parameters and then a block",
        Kind::Block => "declarations and then statements",
        Kind::Assignment => "a location and an expression",
        Kind::Step => "a location",
        Kind::CallStatement => "a call",
        Kind::If => "an expression, a block and perhaps a second block",
        Kind::For => "two expressions, an assignment or a step, and a block",
        Kind::While => "an expression and a block",
        Kind::Return => "at most an expression",
        Kind::ArrayLocation | Kind::Unary | Kind::Cast => "an expression",
        Kind::Call => "at most six expressions or strings",
        Kind::Binary => "two expressions",
        Kind::Import
        | Kind::ScalarDeclaration
        | Kind::ArrayDeclaration
        | Kind::Parameter
        | Kind::Break
        | Kind::Continue
        | Kind::ScalarLocation
        | Kind::Literal
        | Kind::Len
        | Kind::Text => "none",
    }
}

// What the tags of a kind say, from 0 on: each word after a space.
const TYPES: [&str; 4] = [" void", " int", " long", " bool"];

const ASSIGNMENTS: [&str; 6] = [" =", " +=", " -=", " *=", " /=", " %="];

const STEPS: [&str; 2] = [" ++", " --"];

const SIGNS: [&str; 2] = [" -", " !"];

const OPERATORS: [&str; 13] = [
    " +", " -", " *", " /", " %", " <", " >", " <=", " >=", " ==", " !=", " &&", " ||",
];

/// The word for the type that a tag tells, after a space.
pub fn type_word(tag: u8) -> Option<&'static str> {
    tag_word(Kind::Parameter, tag)
}

// What the tag of a node says, after a space; nothing where it has no meaning.
fn tag_word(kind: Kind, tag: u8) -> Option<&'static str> {
    let fields = kind.fields();
    if tag < fields.first || fields.last < tag {
        return None;
    }
    let words: &'static [&'static str] = match kind {
        Kind::ScalarDeclaration
        | Kind::ArrayDeclaration
        | Kind::Method
        | Kind::Parameter
        | Kind::Literal
        | Kind::Cast => &TYPES,
        Kind::Assignment => &ASSIGNMENTS,
        Kind::Step => &STEPS,
        Kind::Unary => &SIGNS,
        Kind::Binary => &OPERATORS,
        _ => &[],
    };
    words.get(tag as usize).copied()
}

/// A node in words: the word for its kind and then its fields. A tag without a meaning, the number of a name or string
/// that does not exist, and a field that the kind lacks and that is not zero are shown as the numbers that they are.
pub fn node_words<'a>(reader: Reader<'a>, record: &[u8]) -> (&'static str, Phrase<'a>) {
    match Node::decode(record) {
        Some(node) => {
            let details = Three(tag_of(node), name_of(reader, node), value_of(reader, node));
            (word(node.kind), details)
        }
        None => (
            "unknown kind",
            Phrase::one(Piece::Number(" ", byte(record, 0) as i64, "")),
        ),
    }
}

// Kept: a tag is any byte of the file, and 0 where the kind has none.
fn tag_of<'a>(node: Node) -> Piece<'a> {
    match tag_word(node.kind, node.tag) {
        Some(word) => Piece::Words(word),
        None if node.tag == 0 && node.kind.fields().first == 0 => Piece::default(),
        None => Piece::Number(" tag ", node.tag as i64, ""),
    }
}

// A name is looked up only where the kind has one: that takes a walk over the names.
fn name_of<'a>(reader: Reader<'a>, node: Node) -> Piece<'a> {
    match node.name {
        name if node.kind.fields().named => match reader.name(name as u32) {
            Some(text) => Piece::Bytes(" ", text, ""),
            None => Piece::Number(" name ", name as i64, "?"),
        },
        0 => Piece::default(),
        name => Piece::Number(" name ", name as i64, ""),
    }
}

fn value_of<'a>(reader: Reader<'a>, node: Node) -> Piece<'a> {
    let value = node.value;
    match node.kind.fields().value {
        Value::Free => Piece::Number("[", value, "]"),
        Value::Typed => literal(node.tag, value),
        Value::StringNumber => string_of(reader, value),
        Value::Zero if value != 0 => Piece::Number(" value ", value, ""),
        Value::Zero if node.kind == Kind::ArrayLocation => Piece::Words("[]"),
        Value::Zero => Piece::default(),
    }
}

/// What a sentence adds to the noun of a node: its operator, or the name that it bears or uses.
pub fn particulars<'a>(reader: Reader<'a>, node: Node) -> Piece<'a> {
    let joined = match node.kind {
        Kind::Assignment | Kind::Step | Kind::Unary | Kind::Binary => return tag_of(node),
        Kind::Method | Kind::Parameter | Kind::ScalarLocation | Kind::ArrayLocation => " ",
        Kind::For => " over ",
        _ => " of ",
    };
    match reader.name(node.name as u32) {
        Some(text) if node.kind.fields().named => Piece::Bytes(joined, text, ""),
        _ => Piece::default(),
    }
}

/// The line of the listing that shows node `i`, counted from 1. Before the nodes stand a line for each name and each string,
/// and eight more.
pub fn node_line(reader: Reader, i: u32) -> i64 {
    9 + reader.names().count() as i64 + reader.strings().count() as i64 + i as i64
}

// A literal's value, of the type that its tag tells.
fn literal<'a>(tag: u8, value: i64) -> Piece<'a> {
    match (tag, value) {
        (3, 0) => Piece::Words(" false"),
        (3, 1) => Piece::Words(" true"),
        _ => Piece::Number(" ", value, ""),
    }
}

fn string_of<'a>(reader: Reader<'a>, value: i64) -> Piece<'a> {
    match u8::try_from(value)
        .ok()
        .and_then(|k| reader.string(k as u32))
    {
        Some(text) => Piece::Bytes(" \"", text, "\""),
        None => Piece::Number(" ", value, "?"),
    }
}
