// Text in pieces: what is to be printed is put together as values, by functions that print nothing.
//
// Whatever bytes a piece shows, what is written of it is printable ASCII.
use std::fmt;

/// A piece of text. By default it is empty.
#[derive(Drop)]
pub enum Piece<'a> {
    Words(&'static str),
    /// a number, and what stands before and after it
    Number(&'static str, i64, &'static str),
    /// bytes of a file, and what stands before and after them
    Bytes(&'static str, &'a [u8], &'static str),
}

impl fmt::Display for Piece<'_> {
    fn fmt<W: fmt::Write>(&self, f: &mut fmt::Formatter<W>) -> fmt::Result {
        match self {
            Piece::Words(words) => f.write_str(words),
            Piece::Number(before, number, after) => write!(f, "{before}{number}{after}"),
            Piece::Bytes(before, bytes, after) => write!(f, "{before}{}{after}", Shown(bytes)),
        }
    }
}

impl<'a> Default for Piece<'a> {
    fn default() -> Piece<'a> {
        Piece::Words("")
    }
}

impl<'a> Piece<'a> {
    /// A number of bytes or of things.
    pub fn count(before: &'static str, count: usize, after: &'static str) -> Piece<'a> {
        Piece::Number(before, i64::try_from(count).unwrap_or(i64::MAX), after)
    }
}

/// Three texts, one after another. By default it has no word.
#[derive(Default, Drop)]
pub struct Three<T>(pub T, pub T, pub T);

/// Three pieces.
pub type Phrase<'a> = Three<Piece<'a>>;

/// Three phrases.
pub type Sentence<'a> = Three<Phrase<'a>>;

impl<T: fmt::Display> fmt::Display for Three<T> {
    fn fmt<W: fmt::Write>(&self, f: &mut fmt::Formatter<W>) -> fmt::Result {
        write!(f, "{}{}{}", self.0, self.1, self.2)
    }
}

impl<T: Default> Three<T> {
    /// One text, and no more.
    pub fn one(first: T) -> Three<T> {
        Three(first, T::default(), T::default())
    }

    /// Two texts, and no more.
    pub fn two(first: T, second: T) -> Three<T> {
        Three(first, second, T::default())
    }
}

/// Bytes as text that is safe to show: a byte that is no printable ASCII is written as `\x` and two digits, and a quote
/// or a backslash has a backslash before it.
#[derive(Drop)]
pub struct Shown<'a>(pub &'a [u8]);

impl fmt::Display for Shown<'_> {
    fn fmt<W: fmt::Write>(&self, f: &mut fmt::Formatter<W>) -> fmt::Result {
        for &byte in self.0 {
            write_byte(byte, f)?;
        }
        Ok(())
    }
}

fn write_byte<W: fmt::Write>(byte: u8, f: &mut fmt::Formatter<W>) -> fmt::Result {
    match byte {
        b'"' | b'\\' => write!(f, "\\{}", char::from(byte)),
        b' '..=b'~' => f.write_char(char::from(byte)),
        _ => write!(f, "\\x{byte:02x}"),
    }
}
