// Why a run stops before its end.
ghost use Rattle.std.specs.Prelude.{◌≡◌};
ghost use Rattle.semantics.specs.Stops.{number_of};
ghost use Rattle.semantics.specs.declared.stop.Stop.TheVariants.{Book};

use book::fault::BookFault;
use finding::Numbered;

/// Why a run stops, in the order of the numbers.
#[derive(Clone, Copy, PartialEq, Eq, Debug)]
pub enum Stop {
    /// an array has no element of this index
    Index,
    /// the body of a method with a result ended without a return
    NoResult,
    /// a division by zero, or a remainder
    ZeroDivisor,
    /// the cells that a node needs are not left
    NoCells,
    /// no place is left for an open node
    NoPlace,
    /// no import has this name
    UnknownImport,
    /// an import was called with other arguments than it takes
    Arguments,
    /// a string names no column
    Column,
    /// the book refused
    Book(BookFault),
}

impl From<BookFault> for Stop {
    ghost from_gives = { λ fault stop. stop ≡ Book fault };

    fn from(fault: BookFault) -> Stop {
        Stop::Book(fault)
    }
}

impl Numbered for Stop {
    ghost number = { number_of };

    // Kept: the fault of a book goes with its stop, so the numbers cannot be the enum's own.
    fn number_of(&self) -> u32 {
        match self {
            Stop::Index => 51,
            Stop::NoResult => 52,
            Stop::ZeroDivisor => 53,
            Stop::NoCells => 54,
            Stop::NoPlace => 55,
            Stop::UnknownImport => 56,
            Stop::Arguments => 57,
            Stop::Column => 58,
            Stop::Book(_) => 59,
        }
    }
}
