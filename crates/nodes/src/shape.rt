// The children of a node, by its kind.
ghost use Rattle.std.specs.Prelude.{◌≡◌};
ghost use Rattle.nodes.specs.Kinds.{number};
ghost use Rattle.nodes.specs.Shapes.{shape, of_class};

use crate::kind::Kind;

/// A class of kinds that may stand at the same place.
#[derive(Clone, Copy, PartialEq, Eq, Debug)]
pub enum Class {
    Import,
    Declaration,
    Method,
    Parameter,
    Block,
    Statement,
    /// an assignment or a step
    Update,
    Location,
    Expression,
    Call,
    /// an expression or a string
    Argument,
}

/// How many children a slot takes.
#[derive(Clone, Copy, PartialEq, Eq, Debug)]
pub enum Times {
    One,
    Perhaps,
    Many,
}

/// A place for children of one class.
#[derive(Clone, Copy, PartialEq, Eq, Debug)]
pub struct Slot {
    pub class: Class,
    pub times: Times,
}

impl Class {
    /// Whether a kind is of the class.
    pub fn includes(self, kind: Kind) -> bool
        ensures { result ≡ of_class self (number kind) }
    {
        match self {
            Class::Import => kind == Kind::Import,
            Class::Declaration => matches!(kind, Kind::ScalarDeclaration | Kind::ArrayDeclaration),
            Class::Method => kind == Kind::Method,
            Class::Parameter => kind == Kind::Parameter,
            Class::Block => kind == Kind::Block,
            Class::Statement => kind.is_statement(),
            Class::Update => matches!(kind, Kind::Assignment | Kind::Step),
            Class::Location => matches!(kind, Kind::ScalarLocation | Kind::ArrayLocation),
            Class::Expression => kind.is_expression(),
            Class::Call => kind == Kind::Call,
            Class::Argument => kind.is_expression() || kind == Kind::Text,
        }
    }

    /// Whether a number is that of a kind of the class.
    pub fn has(self, kind: u8) -> bool
        ensures { result ≡ of_class self kind }
    {
        Kind::try_from(kind).is_ok_and(|kind| self.includes(kind))
    }
}

const IMPORTS: Slot = Slot {
    class: Class::Import,
    times: Times::Many,
};

const DECLARATIONS: Slot = Slot {
    class: Class::Declaration,
    times: Times::Many,
};

const METHODS: Slot = Slot {
    class: Class::Method,
    times: Times::Many,
};

const PARAMETERS: Slot = Slot {
    class: Class::Parameter,
    times: Times::Many,
};

const STATEMENTS: Slot = Slot {
    class: Class::Statement,
    times: Times::Many,
};

const BLOCK: Slot = Slot {
    class: Class::Block,
    times: Times::One,
};

const SECOND_BLOCK: Slot = Slot {
    class: Class::Block,
    times: Times::Perhaps,
};

const LOCATION: Slot = Slot {
    class: Class::Location,
    times: Times::One,
};

const EXPRESSION: Slot = Slot {
    class: Class::Expression,
    times: Times::One,
};

const RESULT: Slot = Slot {
    class: Class::Expression,
    times: Times::Perhaps,
};

const CALL: Slot = Slot {
    class: Class::Call,
    times: Times::One,
};

const UPDATE: Slot = Slot {
    class: Class::Update,
    times: Times::One,
};

const ARGUMENT: Slot = Slot {
    class: Class::Argument,
    times: Times::Perhaps,
};

impl Kind {
    /// The slots that the children of a node of this kind fill.
    pub fn shape(self) -> &'static [Slot]
        ensures { result.now ≡ shape self }
    {
        match self {
            Kind::Program => &[IMPORTS, DECLARATIONS, METHODS],
            Kind::Method => &[PARAMETERS, BLOCK],
            Kind::Block => &[DECLARATIONS, STATEMENTS],
            Kind::Assignment => &[LOCATION, EXPRESSION],
            Kind::Step => &[LOCATION],
            Kind::CallStatement => &[CALL],
            Kind::If => &[EXPRESSION, BLOCK, SECOND_BLOCK],
            Kind::For => &[EXPRESSION, EXPRESSION, UPDATE, BLOCK],
            Kind::While => &[EXPRESSION, BLOCK],
            Kind::Return => &[RESULT],
            Kind::ArrayLocation => &[EXPRESSION],
            Kind::Unary => &[EXPRESSION],
            Kind::Cast => &[EXPRESSION],
            Kind::Call => &[ARGUMENT, ARGUMENT, ARGUMENT, ARGUMENT, ARGUMENT, ARGUMENT],
            Kind::Binary => &[EXPRESSION, EXPRESSION],
            Kind::Import
            | Kind::ScalarDeclaration
            | Kind::ArrayDeclaration
            | Kind::Parameter
            | Kind::Break
            | Kind::Continue
            | Kind::ScalarLocation
            | Kind::Literal
            | Kind::Len
            | Kind::Text => &[],
        }
    }
}
