// The fields of a node, by its kind.
ghost use Rattle.std.specs.Prelude.{◌≡◌, ℕ, if◌then◌else◌, ◌==◌, nat_lt};
ghost use Rattle.nodes.specs.Fields.{fields, value_fits, fits, under, bad_fields};

use crate::bytes::{byte, i64_at};
use crate::kind::Kind;

/// What the value of a node is.
#[derive(Clone, Copy, PartialEq, Eq, Debug)]
pub enum Value {
    /// nothing: it is zero
    Zero,
    /// any number
    Free,
    /// any number, but 0 or 1 where the tag says bool
    Typed,
    /// the number of a string
    StringNumber,
}

/// What the fields of a kind of node may be.
#[derive(Clone, Copy, PartialEq, Eq, Debug)]
pub struct Fields {
    /// the lowest tag
    pub first: u8,
    /// the highest tag
    pub last: u8,
    /// whether it has a name
    pub named: bool,
    pub value: Value,
}

const fn row(first: u8, last: u8, named: bool, value: Value) -> Fields
    ensures { result ≡ record { first = first; last = last; named = named; value = value } }
{
    Fields {
        first,
        last,
        named,
        value,
    }
}

impl Kind {
    /// The fields that nodes of this kind have.
    pub fn fields(self) -> Fields
        ensures { result ≡ fields self }
    {
        match self {
            Kind::Program => row(0, 0, false, Value::Zero),
            Kind::Import => row(0, 0, true, Value::Zero),
            Kind::ScalarDeclaration => row(1, 3, true, Value::Zero),
            Kind::ArrayDeclaration => row(1, 3, true, Value::Free),
            Kind::Method => row(0, 3, true, Value::Zero),
            Kind::Parameter => row(1, 3, true, Value::Zero),
            Kind::Block => row(0, 0, false, Value::Zero),
            Kind::Assignment => row(0, 5, false, Value::Zero),
            Kind::Step => row(0, 1, false, Value::Zero),
            Kind::CallStatement => row(0, 0, false, Value::Zero),
            Kind::If => row(0, 0, false, Value::Zero),
            Kind::For => row(0, 0, true, Value::Zero),
            Kind::While => row(0, 0, false, Value::Zero),
            Kind::Return => row(0, 0, false, Value::Zero),
            Kind::Break => row(0, 0, false, Value::Zero),
            Kind::Continue => row(0, 0, false, Value::Zero),
            Kind::ScalarLocation => row(0, 0, true, Value::Zero),
            Kind::ArrayLocation => row(0, 0, true, Value::Zero),
            Kind::Literal => row(1, 3, false, Value::Typed),
            Kind::Unary => row(0, 1, false, Value::Zero),
            Kind::Cast => row(1, 2, false, Value::Zero),
            Kind::Call => row(0, 0, true, Value::Zero),
            Kind::Len => row(0, 0, true, Value::Zero),
            Kind::Binary => row(0, 12, false, Value::Zero),
            Kind::Text => row(0, 0, false, Value::StringNumber),
        }
    }
}

/// The tag of a literal of type bool.
const BOOL: u8 = 3;

// From 0 to below the limit.
fn is_under(value: i64, limit: u32) -> bool
    ensures { result ≡ under value limit }
{
    (0..limit as i64).contains(&value)
}

fn value_fits(rule: Value, tag: u8, strings: u32, value: i64) -> bool
    ensures { result ≡ value_fits rule tag strings value }
{
    match rule {
        Value::Zero => is_under(value, 1),
        Value::Free => true,
        Value::Typed => tag != BOOL || is_under(value, 2),
        Value::StringNumber => is_under(value, strings),
    }
}

fn name_fits(named: bool, name: u8, names: u32) -> bool
    ensures { result ≡ (if named then nat_lt name names else (name == 0)) }
{
    if named {
        (name as u32) < names
    } else {
        name == 0
    }
}

fn row_fits(row: Fields, names: u32, strings: u32, bytes: &[u8]) -> bool
    ensures { result ≡ fits row names strings bytes.now }
{
    let tag = byte(bytes, 1);
    (row.first..=row.last).contains(&tag)
        && name_fits(row.named, byte(bytes, 2), names)
        && byte(bytes, 3) == 0
        && byte(bytes, 6) == 0
        && byte(bytes, 7) == 0
        && value_fits(row.value, tag, strings, i64_at(bytes, 8))
}

/// Whether a node's record breaks what its kind asks of the fields, in a file with so many names and strings.
pub fn bad_fields(names: u32, strings: u32, bytes: &[u8]) -> bool
    ensures { result ≡ bad_fields names strings bytes.now }
{
    !Kind::try_from(byte(bytes, 0)).is_ok_and(|kind| row_fits(kind.fields(), names, strings, bytes))
}
