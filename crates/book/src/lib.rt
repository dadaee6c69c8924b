// A book of lots: what a rule reads and writes, by its meaning.
//
// A book keeps, for each of the columns 0 to 7 and each of its lots, a signed 32-bit value or none. Its trait has the meaning
// as a ghost member, and the contract of each call is said over the meaning: what the call answers, and the meaning after it.
// So code over any book, and the laws of books, are proved once, whatever a book is made of.
//
// Proved here: the laws of a meaning (`laws`), and that one call, a list of calls (`calls`) and the list of all values
// (`values`) answer what the meaning says. Not promised: how long a call takes, which is for each make to say.
#![tactic(auto)]

ghost use Rattle.std.specs.Prelude.{◌≡◌, ◌≤◌};
ghost use Rattle.book.specs.Meanings.{Meaning, put_answer, put_after, get_answer};

use crate::fault::BookFault;

pub mod calls;
pub mod fault;
pub mod laws;
pub mod spot;
pub mod values;

/// The number of columns: they are 0 to 7.
pub const COLUMNS: u32 = 8;

/// The most lots that a book has.
pub const MOST_LOTS: u32 = 4096;

/// A book of lots, numbered from 0, with the columns 0 to 7.
///
/// A column over 7 is refused as `BookFault::Column`; then a lot outside the book, also one below 0, as `BookFault::Lot`.
// Kept: a call gives its column and its lot as the two numbers that a rule passes, since it is the book that refuses them.
pub trait Book {
    /// What the book means, which decides all that its calls show of it.
    ghost meaning: { Self → Meaning };

    /// The number of lots.
    fn lots(&self) -> u32
        ensures { result ≡ (meaning self.now).lots };

    /// Sets the value of a column and a lot; a free place is taken where they have none yet. Nothing else changes.
    ///
    /// Where they have no place and none is free, the put is refused as `BookFault::NoPlace`. A refused put changes nothing.
    fn put(&mut self, column: u32, lot: i32, value: i32) -> Result<(), BookFault>
        ensures answer { result ≡ put_answer (meaning self.old) column lot }
        ensures after { meaning self.new ≡ put_after (meaning self.old) column lot value };

    /// The value of a column and a lot, or `None` where there is none.
    fn get(&self, column: u32, lot: i32) -> Result<Option<i32>, BookFault>
        ensures { result ≡ get_answer (meaning self.now) column lot };

    /// A book has at most 4,096 lots.
    ghost few: { (book : Self) → (meaning book).lots ≤ 4096 };
}
