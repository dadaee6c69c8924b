// Why a book refuses a call.
ghost use Rattle.book.specs.Faults.{number_of};

use finding::Numbered;
use std::error::Error;
use std::fmt;

/// Why a book refuses a call, in the order in which the causes are tried. A refused call leaves the book as it was.
#[derive(Clone, Copy, PartialEq, Eq, Debug)]
pub enum BookFault {
    /// a column over 7
    Column = 61,
    /// a lot below 0, or not below the number of lots
    Lot = 62,
    /// a put where there is no place, and none is free
    NoPlace = 63,
}

impl fmt::Display for BookFault {
    fn fmt<W: fmt::Write>(&self, f: &mut fmt::Formatter<W>) -> fmt::Result {
        f.write_str(match self {
            BookFault::Column => "there is no such column",
            BookFault::Lot => "there is no such lot",
            BookFault::NoPlace => "no place is free",
        })
    }
}

impl Error for BookFault {}

impl Numbered for BookFault {
    ghost number = { number_of };

    fn number_of(&self) -> u32 {
        *self as u32
    }
}
