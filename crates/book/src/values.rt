// All values of a book, by lot and then by column.
ghost use Rattle.std.specs.Prelude.{◌≡◌, ◌<◌, ◌++◌, IfOk, OnOk};
ghost use Rattle.book.specs.Spots.{IsIn};
ghost use Rattle.book.specs.Values.{entry_of, in_columns, all_values};

use crate::spot::Spot;
use crate::{Book, COLUMNS};
use std::alloc::{AllocError, Global};

/// A value with its lot and column.
#[derive(Clone, Copy, PartialEq, Eq, Debug)]
pub struct Entry {
    pub lot: u32,
    pub column: u32,
    pub value: i32,
}

/// All values of a book, by lot and then by column. `Err` says that memory is wanting.
// Kept: a `for` over the range of lots is plain, and leaves by `?` where memory is wanting.
pub fn values<B: Book>(heap: Global, book: &B) -> Result<Vec<Entry>, AllocError>
    ensures { IfOk result (λ found. found.items ≡ all_values (B.Book.meaning book.now)) }
{
    let mut found = Vec::new(heap);
    for lot in 0..book.lots() {
        add_lot(&mut found, book, lot)?;
    }
    Ok(found)
}

// Adds the values of a lot, by column.
// Kept: each is pushed in a plain `for`. By `extend` the list is taken apart and put together again at each lot, and listing a book without
// values took three times as long.
fn add_lot<B: Book>(found: &mut Vec<Entry>, book: &B, lot: u32) -> Result<(), AllocError>
    requires { lot < (B.Book.meaning book.now).lots }
    ensures { OnOk result (found.new.items ≡ found.old.items ++ in_columns (B.Book.meaning book.now) lot 8) }
{
    for column in 0..COLUMNS {
        if let Some(entry) = entry_at(book, Spot { column, lot }) {
            found.push(entry)?;
        }
    }
    Ok(())
}

// The value of a spot of the book, as an entry.
fn entry_at<B: Book>(book: &B, spot: Spot) -> Option<Entry>
    requires { IsIn (B.Book.meaning book.now).lots spot }
    ensures { result ≡ entry_of spot.lot spot.column ((B.Book.meaning book.now).value spot.column spot.lot) }
{
    let Spot { column, lot } = spot;
    let value = book.get(column, lot as i32).ok().flatten()?;
    Some(Entry { lot, column, value })
}
