// Runs a script, line by line.
use crate::Desk;
use crate::books::AnyBook;
use crate::line_error::LineError;
use crate::look::Program;
use crate::script::{Line, column_name, parse};
use book::calls::Answer;
use book::fault::BookFault;
use book::values::Entry;
use finding::Numbered;
use std::fs;
use std::io::{self, Eprint, Print};
use std::process::ExitCode;
use std::rt::Files;
use wording::text::Shown;

impl<R: Files + Print + Eprint + AllocGlobal, P: Program> Desk<'_, R, P> {
    /// Does what the lines of a script say. It ends at the first line that cannot be done, which is named on standard error; what
    /// was printed before stands.
    pub(crate) fn run_script(&self, path: &str) -> io::Result<ExitCode> {
        let rt = self.rt;
        let script = match fs::read_to_string(rt, path) {
            Ok(script) => script,
            Err(reason) => {
                eprintln!(rt; "lotbook: {path}: {reason}")?;
                return Ok(ExitCode::FAILURE);
            }
        };
        let mut open = None;
        for (n, line) in script.as_str().lines().enumerate() {
            match self.do_line(&mut open, line) {
                Ok(()) => {}
                Err(LineError::Output(reason)) => return Err(reason),
                Err(why) => {
                    complain(rt, path, n, line, why)?;
                    return Ok(ExitCode::FAILURE);
                }
            }
        }
        Ok(ExitCode::SUCCESS)
    }

    // Does what a line says with the book that is open.
    fn do_line(&self, open: &mut Option<AnyBook>, line: &str) -> Result<(), LineError> {
        let rt = self.rt;
        let Some(said) = parse(line)? else {
            return Ok(());
        };
        match said {
            Line::Table(rows) => open_new(rt, open, AnyBook::table(rt.alloc(), rows)?)?,
            Line::Slips(lots, slips) => {
                open_new(rt, open, AnyBook::slips(rt.alloc(), lots, slips)?)?;
            }
            Line::Call(call) => {
                let book = open.as_mut().ok_or(LineError::NoBook)?;
                print_answer(rt, book.call(call))?;
            }
            Line::Dump => {
                let book = open.as_ref().ok_or(LineError::NoBook)?;
                print_values(rt, book)?;
            }
            Line::Look(command, path) => {
                self.look(command, path)?.ok_or(LineError::Unreadable)?;
            }
        }
        Ok(())
    }
}

fn complain<R: Eprint>(rt: &R, path: &str, n: usize, line: &str, why: LineError) -> io::Result<()> {
    let number = n.saturating_add(1);
    let line = Shown(line.as_bytes());
    eprintln!(rt; "lotbook: {path}: line {number}, \"{line}\", {why}")
}

// The new book takes the place of the one that was open.
fn open_new<R: Print>(rt: &R, open: &mut Option<AnyBook>, book: AnyBook) -> io::Result<()> {
    *open = Some(book);
    println!(rt; "done")
}

fn print_answer<R: Print>(rt: &R, answer: Result<Answer, BookFault>) -> io::Result<()> {
    match answer {
        Ok(answer) => println!(rt; "{answer}"),
        Err(fault) => println!(rt; "refused {} 0", fault.number_of()),
    }
}

// A line for each value by lot and then column, and `end`.
fn print_values<R: Print + AllocGlobal>(rt: &R, book: &AnyBook) -> io::Result<()> {
    for Entry { lot, column, value } in book.values(rt.alloc())? {
        let column = column_name(column);
        println!(rt; "{lot} {column} {value}")?;
    }
    println!(rt; "end")
}
