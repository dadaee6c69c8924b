// The rules of one node, over what they look at, and its type.
ghost use Rattle.std.specs.Prelude.{◌≡◌};
ghost use Rattle.nodes.specs.Kinds.{number, between};
ghost use Rattle.node_rules.specs.Scopes.{fits_32};
ghost use Rattle.node_rules.specs.Rules.{same_kind, is, names_scalar, names_array, names_callable, names_method, names_void, declared_type, is_declaration, is_use, operation, is_arithmetic, is_equality, is_logical, is_compound, condition, is_int_constant, has_index, of_one, of_one_number, broken_by, first_broken, call_type, sound_type, typed_unless};
ghost use Rattle.node_rules.specs.Violations.{rules};

use crate::facts::{Declared, Facts};
use crate::types::{
    Ty, are_both, are_one_number_type, are_one_type, is_asked, is_type, type_of_tag,
};
use crate::violation::Violation;
use nodes::kind::Kind;

/// The rules in their order, which is that of their numbers.
const RULES: [Violation; 23] = [
    Violation::RepeatedName,
    Violation::Undeclared,
    Violation::NoMain,
    Violation::EmptyArray,
    Violation::Arguments,
    Violation::VoidValue,
    Violation::StringArgument,
    Violation::ReturnedValue,
    Violation::MissingResult,
    Violation::NotScalar,
    Violation::NotCallable,
    Violation::NotElement,
    Violation::NotArray,
    Violation::Condition,
    Violation::Arithmetic,
    Violation::Equality,
    Violation::Logic,
    Violation::CastOperand,
    Violation::Assigned,
    Violation::Compound,
    Violation::Index,
    Violation::OutsideLoop,
    Violation::TooLarge,
];

/// The tag of an assignment `=`; any other reckons with the old value, as `+=`.
const PLAIN: u8 = 0;

/// What an operator does with its operands.
#[derive(Clone, Copy, PartialEq, Eq, Debug)]
enum Operation {
    /// minus, and what makes a number of two
    Arithmetic,
    Order,
    Equality,
    /// not, and, or
    Logic,
}

// What a name means. Where a kind of declaration is asked for, a name that is not declared counts as one that fits.

fn is_scalar(means: Option<Declared>) -> bool
    ensures { result ≡ names_scalar means }
{
    means.is_none_or(|d| matches!(d.kind, Kind::ScalarDeclaration | Kind::Parameter))
}

fn is_array(means: Option<Declared>) -> bool
    ensures { result ≡ names_array means }
{
    means.is_none_or(|d| d.kind == Kind::ArrayDeclaration)
}

// Kept: each of these tests is one line, by the name of its definition.
fn is_callable(means: Option<Declared>) -> bool
    ensures { result ≡ names_callable means }
{
    means.is_none_or(|d| matches!(d.kind, Kind::Import | Kind::Method))
}

// Kept: each of these tests is one line, by the name of its definition.
fn is_method(means: Option<Declared>) -> bool
    ensures { result ≡ names_method means }
{
    means.is_some_and(|d| d.kind == Kind::Method)
}

fn is_void(means: Option<Declared>) -> bool
    ensures { result ≡ names_void means }
{
    means.is_some_and(|d| d.kind == Kind::Method && d.ty.is_none())
}

fn type_of_declared(means: Option<Declared>) -> Option<Ty>
    ensures { result ≡ declared_type means }
{
    means?.ty
}

// The type of a call: an import gives an int.
fn type_of_call(means: Option<Declared>) -> Option<Ty>
    ensures { result ≡ call_type means }
{
    let declared = means?;
    if declared.kind == Kind::Import {
        Some(Ty::Int)
    } else {
        declared.ty
    }
}

// From the lowest int to the highest.
fn is_within_32_bits(value: i64) -> bool
    ensures { result ≡ fits_32 value }
{
    i32::try_from(value).is_ok()
}

impl Facts {
    fn is(&self, kind: Kind) -> bool
        ensures { result ≡ is kind self.now }
    {
        self.node.kind == kind
    }

    fn is_declaration(&self) -> bool
        ensures { result ≡ is_declaration self.now }
    {
        self.node.kind.declares_name()
    }

    // Kept: each of these tests is one line, by the name of its definition.
    fn is_use(&self) -> bool
        ensures { result ≡ is_use self.now }
    {
        self.node.kind.uses_name()
    }

    // What the operator of a unary or binary expression does; none of another node. Its tag may be any byte: one past the last
    // operator's counts as logic.
    fn operation(&self) -> Option<Operation>
        ensures { result ≡ operation self.now }
    {
        match (self.node.kind, self.node.tag) {
            (Kind::Unary, 0) | (Kind::Binary, 0..=4) => Some(Operation::Arithmetic),
            (Kind::Binary, 5..=8) => Some(Operation::Order),
            (Kind::Binary, 9..=10) => Some(Operation::Equality),
            (Kind::Unary | Kind::Binary, _) => Some(Operation::Logic),
            _ => None,
        }
    }

    fn is_arithmetic(&self) -> bool
        ensures { result ≡ is_arithmetic self.now }
    {
        matches!(
            self.operation(),
            Some(Operation::Arithmetic | Operation::Order)
        )
    }

    fn is_equality(&self) -> bool
        ensures { result ≡ is_equality self.now }
    {
        self.operation() == Some(Operation::Equality)
    }

    // Kept: each of these tests is one line, by the name of its definition.
    fn is_logical(&self) -> bool
        ensures { result ≡ is_logical self.now }
    {
        self.operation() == Some(Operation::Logic)
    }

    fn is_compound(&self) -> bool
        ensures { result ≡ is_compound self.now }
    {
        self.is(Kind::Step) || self.is(Kind::Assignment) && self.node.tag != PLAIN
    }

    // The type of the condition of an if, a for or a while.
    fn condition(&self) -> Option<Ty>
        ensures { result ≡ condition self.now }
    {
        if self.is(Kind::For) {
            self.held.second
        } else {
            self.held.first
        }
    }

    // Whether it is an if, a for or a while.
    fn has_condition(&self) -> bool
        ensures { result ≡ between 11 13 (number self.now.node.kind) }
    {
        matches!(self.node.kind, Kind::If | Kind::For | Kind::While)
    }

    // Whether it is a break or a continue.
    fn leaves_loop(&self) -> bool
        ensures { result ≡ between 15 16 (number self.now.node.kind) }
    {
        matches!(self.node.kind, Kind::Break | Kind::Continue)
    }

    // Whether it has a value that must be an int: a literal, or an array's length.
    fn is_int_constant(&self) -> bool
        ensures { result ≡ is_int_constant self.now }
    {
        self.is(Kind::Literal) && type_of_tag(self.node.tag) == Some(Ty::Int)
            || self.is(Kind::ArrayDeclaration)
    }

    // Whether a for's index is an int or long scalar, and the first expression of its type.
    fn has_index(&self) -> bool
        ensures { result ≡ has_index self.now }
    {
        is_scalar(self.means) && are_one_number_type(type_of_declared(self.means), self.held.first)
    }

    fn are_one(&self) -> bool
        ensures { result ≡ of_one self.now }
    {
        are_one_type(self.held.first, self.held.second)
    }

    // Kept: each of these tests is one line, by the name of its definition.
    fn are_one_number(&self) -> bool
        ensures { result ≡ of_one_number self.now }
    {
        are_one_number_type(self.held.first, self.held.second)
    }

    /// Whether a rule is broken.
    pub fn breaks(&self, rule: Violation) -> bool
        ensures { result ≡ broken_by rule self.now }
    {
        match rule {
            Violation::RepeatedName => self.is_declaration() && self.repeats,
            Violation::Undeclared => self.is_use() && self.means.is_none(),
            Violation::NoMain => self.is(Kind::Program) && !self.main,
            Violation::EmptyArray => self.is(Kind::ArrayDeclaration) && self.node.value <= 0,
            Violation::Arguments => self.is(Kind::Call) && is_method(self.means) && !self.matching,
            Violation::VoidValue => {
                self.is(Kind::Call) && is_void(self.means) && self.parent != Kind::CallStatement
            }
            Violation::StringArgument => self.is(Kind::Text) && is_method(self.callee),
            Violation::ReturnedValue => {
                self.is(Kind::Return) && self.result.is_none() && self.held.count > 0
            }
            Violation::MissingResult => {
                self.is(Kind::Return)
                    && self.result.is_some()
                    && !(self.held.count > 0 && is_asked(self.result, self.held.first))
            }
            Violation::NotScalar => self.is(Kind::ScalarLocation) && !is_scalar(self.means),
            Violation::NotCallable => self.is(Kind::Call) && !is_callable(self.means),
            Violation::NotElement => {
                self.is(Kind::ArrayLocation)
                    && !(is_array(self.means) && is_type(Ty::Int, self.held.first))
            }
            Violation::NotArray => self.is(Kind::Len) && !is_array(self.means),
            Violation::Condition => self.has_condition() && !is_type(Ty::Bool, self.condition()),
            Violation::Arithmetic => self.is_arithmetic() && !self.are_one_number(),
            Violation::Equality => self.is_equality() && !self.are_one(),
            Violation::Logic => {
                self.is_logical() && !are_both(Ty::Bool, self.held.first, self.held.second)
            }
            Violation::CastOperand => self.is(Kind::Cast) && !self.are_one_number(),
            Violation::Assigned => {
                self.is(Kind::Assignment) && self.node.tag == PLAIN && !self.are_one()
            }
            Violation::Compound => self.is_compound() && !self.are_one_number(),
            Violation::Index => self.is(Kind::For) && !self.has_index(),
            Violation::OutsideLoop => self.leaves_loop() && !self.looped,
            Violation::TooLarge => self.is_int_constant() && !is_within_32_bits(self.node.value),
            Violation::TooManyCells => false,
        }
    }

    /// The lowest rule that is broken.
    pub fn first_broken(&self) -> Option<Violation>
        ensures { result ≡ first_broken rules self.now }
    {
        RULES.iter().copied().find(|rule| self.breaks(*rule))
    }

    // The type of an expression that breaks no rule and holds none without a type.
    fn sound_type(&self) -> Option<Ty>
        ensures { result ≡ sound_type self.now.node.kind self.now }
    {
        let node = self.node;
        match node.kind {
            Kind::ScalarLocation | Kind::ArrayLocation => type_of_declared(self.means),
            Kind::Literal | Kind::Cast => type_of_tag(node.tag),
            Kind::Call => type_of_call(self.means),
            Kind::Len => Some(Ty::Int),
            Kind::Unary | Kind::Binary => {
                if self.operation() == Some(Operation::Arithmetic) {
                    self.held.first
                } else {
                    Some(Ty::Bool)
                }
            }
            _ => None,
        }
    }

    /// The type of the node, where this is the lowest rule that it breaks.
    pub fn type_unless(&self, broken: Option<Violation>) -> Option<Ty>
        ensures { result ≡ typed_unless broken self.now }
    {
        if broken.is_none() && self.held.typed {
            self.sound_type()
        } else {
            None
        }
    }
}
