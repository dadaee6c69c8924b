// Values, and what operators make of them.

/// A value carries its type. A text is the number of a string.
#[derive(Clone, Copy, PartialEq, Eq, Debug)]
pub enum Value {
    Int(i32),
    Long(i64),
    Bool(bool),
    Text(usize),
}

/// The operators of a binary node, in the order of their tags from 0.
#[derive(Clone, Copy, PartialEq, Eq, Debug)]
pub enum Operator {
    Add,
    Subtract,
    Multiply,
    Divide,
    Remainder,
    Less,
    Greater,
    AtMost,
    AtLeast,
    Equal,
    NotEqual,
    And,
    Or,
}

/// Why an operator makes no value of its operands.
#[derive(Clone, Copy, PartialEq, Eq, Debug)]
pub enum Misfit {
    /// a division by zero
    ZeroDivisor,
    /// an operand of a type that the operator does not have
    IllTyped,
}
