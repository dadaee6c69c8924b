// Looks at rule files: the verdict on each, and all that it holds.
ghost use Rattle.std.specs.Prelude.{◌≡◌, is_ok, if◌then◌else◌, IfOk};
ghost use Rattle.desk.specs.declared.look.Seen.TheVariants.{Good, Refused};

use crate::Desk;
use crate::help::Help;
use report::listing::Listing;
use report::verdict::{Found, Reason, Verdict};
use std::error::Error;
use std::io::{self, Eprint, Print, Read};
use std::rt::Files;
use std::str::FromStr;
use std::{fmt, fs};
use wording::words::MOST_BYTES;

/// What is done with each file.
// Kept: a line of a script holds its command too, so a command is a value, and no closure.
#[derive(Clone, Copy, PartialEq, Eq, Debug)]
pub enum Command {
    Check,
    Show,
}

/// A word that is none of these commands.
#[derive(Clone, Copy, PartialEq, Eq, Debug)]
pub struct UnknownCommand;

impl FromStr for Command {
    type Err = UnknownCommand;

    fn from_str(word: &str) -> Result<Command, UnknownCommand> {
        match word {
            "check" => Ok(Command::Check),
            "show" => Ok(Command::Show),
            _ => Err(UnknownCommand),
        }
    }
}

impl fmt::Display for UnknownCommand {
    fn fmt<W: fmt::Write>(&self, f: &mut fmt::Formatter<W>) -> fmt::Result {
        f.write_str("there is no such command")
    }
}

impl Error for UnknownCommand {}

/// What was seen of a file that was read.
#[derive(Clone, Copy, PartialEq, Eq, Debug)]
pub enum Seen {
    Good,
    Refused,
}

/// A program: what it says of a file, and how it is used.
pub trait Program {
    /// How its help text differs from that of other programs.
    fn help(&self) -> Help;

    /// Prints what the command asks for of a file that was read.
    fn tell<R: Print>(&self, rt: &R, command: Command, path: &str, file: &[u8]) -> io::Result<Seen>;
}

/// Prints what the command asks for of a file: the verdict on it, and before that, to show it, all that it holds.
// Kept: a line of a script holds its command too, so a command is a value, and no closure.
pub fn print_verdict<R: Print, G: Found, E: Reason>(
    rt: &R,
    command: Command,
    path: &str,
    verdict: &Verdict<G, E>,
) -> io::Result<Seen>
    ensures { IfOk result (λ seen. seen ≡ (if is_ok verdict.now.found then Good else Refused)) }
{
    match command {
        Command::Check => println!(rt; "{path}: {verdict}")?,
        Command::Show => println!(rt; "{path}: {}{path}: {verdict}", Listing(verdict))?,
    }
    if verdict.is_good() {
        Ok(Seen::Good)
    } else {
        Ok(Seen::Refused)
    }
}

impl<R: Files + Print + Eprint + AllocGlobal, P: Program> Desk<'_, R, P> {
    /// Does what the command says with one file, and answers what was seen of it. One that cannot be read is named on standard
    /// error, and nothing was seen of it.
    pub(crate) fn look(&self, command: Command, path: &str) -> io::Result<Option<Seen>> {
        let rt = self.rt;
        match read(rt, path) {
            Ok(bytes) => Ok(Some(self.program.tell(rt, command, path, bytes.as_slice())?)),
            Err(reason) => {
                eprintln!(rt; "lotbook: {path}: {reason}")?;
                Ok(None)
            }
        }
    }
}

// The bytes of a file, but no more than one past the most that a rule file has: a longer one is refused by its size, and
// need not be held in memory.
fn read<R: Files + AllocGlobal>(rt: &R, path: &str) -> io::Result<Vec<u8>> {
    let mut bytes = Vec::new(rt.alloc());
    let mut file = fs::open(rt, path)?.take(MOST_BYTES as u64 + 1);
    file.read_to_end(&mut bytes)?;
    Ok(bytes)
}
