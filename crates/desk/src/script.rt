// A script: lines that say what is to be done with a book and with rule files.
use crate::line_error::LineError;
use crate::look::Command;
use book::calls::Call;
use std::num::ParseIntError;
use std::str::{FromStr, SplitWhitespace};

/// What a line of a script says.
#[derive(Clone, Copy, PartialEq, Eq, Debug)]
pub(crate) enum Line<'a> {
    /// a new table book, of so many rows
    Table(u32),
    /// a new slips book, of so many lots and slips
    Slips(u32, u32),
    /// a call of the book
    Call(Call),
    /// all values of the book
    Dump,
    /// a look at a rule file
    Look(Command, &'a str),
}

/// What a line says, or nothing where it is blank or begins with `#`. It is `NoLine` for an unknown word, a word too few or too
/// many, or a number that does not fit.
pub(crate) fn parse(line: &str) -> Result<Option<Line<'_>>, LineError> {
    if line.starts_with('#') {
        return Ok(None);
    }
    let mut words = line.split_whitespace();
    let Some(word) = words.next() else {
        return Ok(None);
    };
    let said = first_word(word, &mut words).ok_or(LineError::NoLine)?;
    match words.next() {
        None => Ok(Some(said)),
        Some(_) => Err(LineError::NoLine),
    }
}

fn first_word<'a>(word: &str, words: &mut SplitWhitespace<'a>) -> Option<Line<'a>> {
    match word {
        "book" => new_book(words),
        "put" => Some(Line::Call(Call::Put {
            column: column(words.next()?)?,
            lot: number(words)?,
            value: number(words)?,
        })),
        "get" => Some(Line::Call(Call::Get {
            column: column(words.next()?)?,
            lot: number(words)?,
        })),
        "lots" => Some(Line::Call(Call::Lots)),
        "dump" => Some(Line::Dump),
        _ => Some(Line::Look(word.parse::<Command>().ok()?, words.next()?)),
    }
}

fn new_book<'a>(words: &mut SplitWhitespace<'a>) -> Option<Line<'a>> {
    match words.next()? {
        "table" => Some(Line::Table(number(words)?)),
        "slips" => Some(Line::Slips(number(words)?, number(words)?)),
        _ => None,
    }
}

fn number<N: FromStr<Err = ParseIntError>>(words: &mut SplitWhitespace) -> Option<N> {
    words.next()?.parse::<N>().ok()
}

// The names of the columns, by number.
const COLUMNS: [&str; 8] = [
    "micron", "yield", "staple", "strength", "vm", "colour", "reserve", "bales",
];

// A column by its name, or by a number, which may be one that no book has.
fn column(word: &str) -> Option<u32> {
    match COLUMNS.iter().position(|name| *name == word) {
        Some(column) => u32::try_from(column).ok(),
        None => word.parse::<u32>().ok(),
    }
}

/// The name of a column; a number that no book has is shown as a question mark.
pub(crate) fn column_name(column: u32) -> &'static str {
    COLUMNS.get(column as usize).copied().unwrap_or("?")
}
