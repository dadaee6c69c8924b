// Why a rule file that keeps the layout is refused.
ghost use Rattle.node_rules.specs.Violations.{number_of};

use finding::Numbered;

/// A rule of the language that is broken, in the order of the rules and with their numbers; and then that the fields need too many cells.
#[derive(Clone, Copy, PartialEq, Eq, Debug)]
pub enum Violation {
    /// a declaration repeats a name of its scope
    RepeatedName = 21,
    /// a name is used that has no declaration in force
    Undeclared,
    /// the program has no void method main without parameters
    NoMain,
    /// an array's length is not above 0
    EmptyArray,
    /// a call of a method does not match its parameters in number and types
    Arguments,
    /// a call of a void method is no call statement's
    VoidValue,
    /// a string is an argument of a method
    StringArgument,
    /// a return in a void method has an expression
    ReturnedValue,
    /// a return in another method lacks an expression of the method's type
    MissingResult,
    /// a scalar location names no scalar
    NotScalar,
    /// a call names no method or import
    NotCallable,
    /// an array location names no array, or has no int index
    NotElement,
    /// a len names no array
    NotArray,
    /// an if, while or for has no bool condition
    Condition,
    /// minus, arithmetic or an order has operands that are not all int or all long
    Arithmetic,
    /// an equality has operands of two types
    Equality,
    /// a logical operator has an operand that is no bool
    Logic,
    /// a cast has an operand that is no int or long
    CastOperand,
    /// an assignment has two types on its sides
    Assigned,
    /// another assignment or a step has no int or long location, or an expression of another type
    Compound,
    /// a for has no int or long scalar as index, or a first expression of another type
    Index,
    /// a break or continue is outside a loop
    OutsideLoop,
    /// an int literal or an array's length does not fit 32 signed bits
    TooLarge,
    /// the program's own variables need more than 2,048 cells
    TooManyCells,
}

impl Numbered for Violation {
    ghost number = { number_of };

    fn number_of(&self) -> u32 {
        *self as u32
    }
}
