// What a broken rule of the language is called: the node that breaks it, where that stands, and what is wrong with it.
use crate::at::At;
use finding::Finding;
use layout::reader::Reader;
use node_rules::violation::Violation;
use nodes::kind::Kind;
use wording::text::{Phrase, Piece, Sentence, Three};
use wording::words;
use wording::words::MOST_NODES;

/// The sentence on a violation.
pub fn sentence<'a>(reader: Reader<'a>, finding: Finding<Violation>) -> Sentence<'a> {
    let at = At::of(reader, finding.place);
    match finding.cause {
        Violation::TooManyCells => Sentence::one(too_many_cells(reader)),
        cause => Three(
            subject(at),
            position(at),
            Phrase::two(
                Piece::Words(claim(cause)),
                evidence(at, cause).unwrap_or_default(),
            ),
        ),
    }
}

// A node by its number, its kind, and its operator or name.
fn subject<'a>(at: At<'a>) -> Phrase<'a> {
    let number = Piece::Number("node ", at.i as i64, ", ");
    match at.node() {
        Some(node) => Three(
            number,
            Piece::Words(words::noun(node.kind)),
            words::particulars(at.reader, node),
        ),
        None => Phrase::two(number, Piece::Words("of no known kind")),
    }
}

// The method that a node lies in, and its line in the listing.
fn position<'a>(at: At<'a>) -> Phrase<'a> {
    let method = match at.method_around() {
        Some(method) => {
            let name = at.reader.name(method.name as u32).unwrap_or(&[]);
            Piece::Bytes(" in method ", name, "")
        }
        None => Piece::default(),
    };
    let line = Piece::Number(", line ", words::node_line(at.reader, at.i), " of show: ");
    Phrase::two(method, line)
}

// What is wrong with the node, in words that end a sentence or that the evidence ends.
fn claim(cause: Violation) -> &'static str {
    match cause {
        Violation::RepeatedName => "its name is already declared in this scope",
        Violation::Undeclared => "its name has no declaration in force here",
        Violation::NoMain => "it has no void method main without parameters",
        Violation::EmptyArray => "its length has to be above 0, and is",
        Violation::Arguments =>
            "its arguments do not match the method's parameters in number and types",
        Violation::VoidValue => "it calls a void method, which gives no value",
        Violation::StringArgument => "it is an argument of a method, and only imports take strings",
        Violation::ReturnedValue => "its method is void, and it has an expression",
        Violation::MissingResult => "it has to have an expression of its method's type,",
        Violation::NotScalar => "its name means no scalar here",
        Violation::NotCallable => "its name means no method or import here",
        Violation::NotElement => "its name means no array here, or its index is no int",
        Violation::NotArray => "its name means no array here",
        Violation::Condition => "its condition is no bool",
        Violation::Arithmetic => "its operands are not all int or all long",
        Violation::Equality => "its operands are not of one type",
        Violation::Logic => "its operands are not all bool",
        Violation::CastOperand => "its operand is no int or long",
        Violation::Assigned => "its two sides are not of one type",
        Violation::Compound => "its location is no int or long, or its expression of another type",
        Violation::Index =>
            "its index is no int or long scalar, or its first expression of another type",
        Violation::OutsideLoop => "it stands in no loop",
        Violation::TooLarge => "its number has to fit 32 signed bits, and is",
        Violation::TooManyCells => "its own variables need too many cells",
    }
}

// What the node has that is wrong, where that can be told in a word or a number.
fn evidence<'a>(at: At<'a>, cause: Violation) -> Option<Piece<'a>> {
    match cause {
        Violation::RepeatedName => {
            let lower = at.lower_namesake()?;
            Some(Piece::Number(", at node ", lower as i64, ""))
        }
        Violation::Undeclared => {
            let other = at.first_declaring()?;
            Some(Piece::Number("; that at node ", other as i64, " is not"))
        }
        Violation::EmptyArray | Violation::TooLarge => {
            Some(Piece::Number(" ", at.node()?.value, ""))
        }
        Violation::MissingResult => {
            let method = at.method_around()?;
            Some(Piece::Words(words::type_word(method.tag)?))
        }
        _ => None,
    }
}

// That the program's own variables need too many cells, and how many that is.
fn too_many_cells<'a>(reader: Reader<'a>) -> Phrase<'a> {
    Three(
        Piece::Words("the program's own variables need "),
        Piece::Number("", own_cells(reader), " cells"),
        Piece::Words(", and 2048 are the most"),
    )
}

// One cell for a scalar of the program's own and its length for an array.
fn own_cells(reader: Reader) -> i64 {
    let program = At::of(reader, 0);
    (1..MOST_NODES)
        .map(|i| program.other(i))
        .filter(|at| at.parent().i == 0)
        .map(cells)
        .fold(0, i64::saturating_add)
}

fn cells(at: At<'_>) -> i64 {
    match at.node() {
        Some(node) if node.kind == Kind::ScalarDeclaration => 1,
        Some(node) if node.kind == Kind::ArrayDeclaration => node.value,
        _ => 0,
    }
}
