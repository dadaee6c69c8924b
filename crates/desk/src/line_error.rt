// Why a script ends at a line.
use std::alloc::AllocError;
use std::error::Error;
use std::{fmt, io};

/// Why a script ends at a line.
#[derive(Debug, Drop)]
pub(crate) enum LineError {
    /// it is no line of a script
    NoLine,
    /// memory does not suffice for the book that it asks for
    NoMemory,
    /// it calls a book before one is made
    NoBook,
    /// it names a file that cannot be read
    Unreadable,
    /// what it prints could not be written
    Output(io::Error),
}

impl fmt::Display for LineError {
    fn fmt<W: fmt::Write>(&self, f: &mut fmt::Formatter<W>) -> fmt::Result {
        match self {
            LineError::NoLine => f.write_str("is no line of a script"),
            LineError::NoMemory => f.write_str("asks for a book that memory does not suffice for"),
            LineError::NoBook => f.write_str("calls a book before one is made"),
            LineError::Unreadable => f.write_str("names a file that cannot be read"),
            LineError::Output(reason) => write!(f, "{reason}"),
        }
    }
}

impl Error for LineError {}

impl From<AllocError> for LineError {
    fn from(_: AllocError) -> LineError {
        LineError::NoMemory
    }
}

impl From<io::Error> for LineError {
    fn from(reason: io::Error) -> LineError {
        LineError::Output(reason)
    }
}
