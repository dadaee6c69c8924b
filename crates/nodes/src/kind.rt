ghost use Rattle.std.specs.Prelude.{◌≡◌, ◌||◌, ◌==◌};
ghost use Rattle.nodes.specs.Kinds.{number, kind_of, named, between};

use std::error::Error;
use std::fmt;

/// The 25 kinds of nodes, in the order of their numbers from 1.
#[derive(Clone, Copy, PartialEq, Eq, Debug)]
pub enum Kind {
    Program = 1,
    Import,
    ScalarDeclaration,
    ArrayDeclaration,
    Method,
    Parameter,
    Block,
    Assignment,
    Step,
    CallStatement,
    If,
    For,
    While,
    Return,
    Break,
    Continue,
    ScalarLocation,
    ArrayLocation,
    Literal,
    Unary,
    Cast,
    Call,
    Len,
    Binary,
    Text,
}

/// A number that no kind has.
#[derive(Clone, Copy, PartialEq, Eq, Debug)]
pub struct UnknownKind(pub u8);

impl From<Kind> for u8 {
    ghost from_gives = { λ kind n. n ≡ number kind };

    fn from(kind: Kind) -> u8 {
        kind as u8
    }
}

impl TryFrom<u8> for Kind {
    type Error = UnknownKind;

    ghost try_from_gives = { λ n kind. kind ≡ named n (kind_of n) };

    fn try_from(number: u8) -> Result<Kind, UnknownKind> {
        match number {
            1 => Ok(Kind::Program),
            2 => Ok(Kind::Import),
            3 => Ok(Kind::ScalarDeclaration),
            4 => Ok(Kind::ArrayDeclaration),
            5 => Ok(Kind::Method),
            6 => Ok(Kind::Parameter),
            7 => Ok(Kind::Block),
            8 => Ok(Kind::Assignment),
            9 => Ok(Kind::Step),
            10 => Ok(Kind::CallStatement),
            11 => Ok(Kind::If),
            12 => Ok(Kind::For),
            13 => Ok(Kind::While),
            14 => Ok(Kind::Return),
            15 => Ok(Kind::Break),
            16 => Ok(Kind::Continue),
            17 => Ok(Kind::ScalarLocation),
            18 => Ok(Kind::ArrayLocation),
            19 => Ok(Kind::Literal),
            20 => Ok(Kind::Unary),
            21 => Ok(Kind::Cast),
            22 => Ok(Kind::Call),
            23 => Ok(Kind::Len),
            24 => Ok(Kind::Binary),
            25 => Ok(Kind::Text),
            _ => Err(UnknownKind(number)),
        }
    }
}

impl fmt::Display for UnknownKind {
    fn fmt<W: fmt::Write>(&self, f: &mut fmt::Formatter<W>) -> fmt::Result {
        write!(f, "no kind of node has the number {}", self.0)
    }
}

impl Error for UnknownKind {}

impl Kind {
    /// Whether it brings a name into force: an import, a variable, a method or a parameter.
    pub fn declares_name(self) -> bool
        ensures { result ≡ between 2 6 (number self) }
    {
        matches!(
            self,
            Kind::Import
                | Kind::ScalarDeclaration
                | Kind::ArrayDeclaration
                | Kind::Method
                | Kind::Parameter
        )
    }

    /// Whether it declares a variable: a scalar, an array or a parameter.
    pub fn is_variable(self) -> bool
        ensures { result ≡ (between 3 4 (number self) || number self == 6) }
    {
        matches!(
            self,
            Kind::ScalarDeclaration | Kind::ArrayDeclaration | Kind::Parameter
        )
    }

    /// Whether it is a statement.
    pub fn is_statement(self) -> bool
        ensures { result ≡ between 8 16 (number self) }
    {
        matches!(
            self,
            Kind::Assignment
                | Kind::Step
                | Kind::CallStatement
                | Kind::If
                | Kind::For
                | Kind::While
                | Kind::Return
                | Kind::Break
                | Kind::Continue
        )
    }

    /// Whether it is a `for` or a `while`.
    pub fn is_loop(self) -> bool
        ensures { result ≡ between 12 13 (number self) }
    {
        matches!(self, Kind::For | Kind::While)
    }

    /// Whether it names what is declared elsewhere: a `for`, a location, a call or a `len`.
    pub fn uses_name(self) -> bool
        ensures { result ≡ (number self == 12 || (between 17 18 (number self) || between 22 23 (number self))) }
    {
        self == Kind::For || self.is_named_expression()
    }

    /// Whether it is an expression that names what is declared elsewhere: a location, a call or a `len`.
    pub fn is_named_expression(self) -> bool
        ensures { result ≡ (between 17 18 (number self) || between 22 23 (number self)) }
    {
        matches!(
            self,
            Kind::ScalarLocation | Kind::ArrayLocation | Kind::Call | Kind::Len
        )
    }

    /// Whether it is an expression.
    pub fn is_expression(self) -> bool
        ensures { result ≡ between 17 24 (number self) }
    {
        matches!(
            self,
            Kind::ScalarLocation
                | Kind::ArrayLocation
                | Kind::Literal
                | Kind::Unary
                | Kind::Cast
                | Kind::Call
                | Kind::Len
                | Kind::Binary
        )
    }
}
