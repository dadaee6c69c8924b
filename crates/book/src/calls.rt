// Calls as values: one call of a book, and a list of calls.
ghost use Rattle.std.specs.Prelude.{◌≡◌, IfOk, MatchResult};
ghost use Rattle.book.specs.Calls.{answer_of, after, answers, after_all};

use crate::Book;
use crate::fault::BookFault;
use std::alloc::{AllocError, Global};
use std::fmt;

/// A call of a book.
#[derive(Clone, Copy, PartialEq, Eq, Debug)]
pub enum Call {
    Put { column: u32, lot: i32, value: i32 },
    Get { column: u32, lot: i32 },
    Lots,
}

/// What a book answers to a call that it does not refuse.
#[derive(Clone, Copy, PartialEq, Eq, Debug)]
pub enum Answer {
    /// the put is done
    Done,
    /// the value that a get found, or that there is none
    Value(Option<i32>),
    /// the number of lots
    Lots(u32),
}

impl fmt::Display for Answer {
    fn fmt<W: fmt::Write>(&self, f: &mut fmt::Formatter<W>) -> fmt::Result {
        match self {
            Answer::Done => f.write_str("done"),
            Answer::Value(Some(value)) => write!(f, "value {value}"),
            Answer::Value(None) => f.write_str("none"),
            Answer::Lots(lots) => write!(f, "lots {lots}"),
        }
    }
}

/// Makes one call of a book, and gives its answer, or why it is refused.
pub fn make_call<B: Book>(book: &mut B, call: Call) -> Result<Answer, BookFault>
    ensures answer { result ≡ answer_of (B.Book.meaning book.old) call }
    ensures after { B.Book.meaning book.new ≡ after (B.Book.meaning book.old) call }
{
    Ok(match call {
        Call::Put { column, lot, value } => {
            book.put(column, lot, value)?;
            Answer::Done
        }
        Call::Get { column, lot } => Answer::Value(book.get(column, lot)?),
        Call::Lots => Answer::Lots(book.lots()),
    })
}

/// Makes the calls one after another, and gives their answers.
///
/// The memory for the answers is asked for first: where it is wanting, no call is made.
pub fn make_calls<B: Book>(
    heap: Global,
    book: &mut B,
    calls: &[Call],
) -> Result<Vec<Result<Answer, BookFault>>, AllocError>
    ensures told { IfOk result (λ told. told.items ≡ answers (B.Book.meaning book.old) calls.now) }
    ensures after { MatchResult result (λ _. B.Book.meaning book.new ≡ after_all (B.Book.meaning book.old) calls.now) (λ _. B.Book.meaning book.new ≡ B.Book.meaning book.old) }
{
    let mut told = Vec::with_capacity(heap, calls.len())?;
    for call in calls {
        told.push_reserved(make_call(book, *call));
    }
    Ok(told)
}
