// The book that a script works on, of either make.
use book::calls::{Answer, Call, make_call};
use book::fault::BookFault;
use book::values::{Entry, values};
use book_makes::slips::SlipsBook;
use book_makes::table::TableBook;
use std::alloc::{AllocError, Global};

/// A book of either make.
#[derive(Drop)]
pub(crate) enum AnyBook {
    Table(TableBook),
    Slips(SlipsBook),
}

impl AnyBook {
    /// A new table book.
    pub(crate) fn table(heap: Global, rows: u32) -> Result<AnyBook, AllocError> {
        Ok(AnyBook::Table(TableBook::new(heap, rows)?))
    }

    /// A new slips book.
    pub(crate) fn slips(heap: Global, lots: u32, slips: u32) -> Result<AnyBook, AllocError> {
        Ok(AnyBook::Slips(SlipsBook::new(heap, lots, slips)?))
    }

    /// Makes a call of the book.
    pub(crate) fn call(&mut self, call: Call) -> Result<Answer, BookFault> {
        match self {
            AnyBook::Table(book) => make_call(book, call),
            AnyBook::Slips(book) => make_call(book, call),
        }
    }

    /// All values of the book, by lot and then by column.
    pub(crate) fn values(&self, heap: Global) -> Result<Vec<Entry>, AllocError> {
        match self {
            AnyBook::Table(book) => values(heap, book),
            AnyBook::Slips(book) => values(heap, book),
        }
    }
}
