// The desk: what a program does by its arguments. It looks at rule files, and works on books of lots by a script.
//
// Programs differ in what they say of a file, and in what their help says of that; all else is here. Nothing is promised of what is printed.
#![tactic(auto)]

use look::{Command, Program, Seen, UnknownCommand};
use std::env;
use std::env::Args;
use std::io::{self, Eprint, Print};
use std::iter::Skip;
use std::process::ExitCode;
use std::rt::{Env, Files};

mod books;
pub mod help;
mod line_error;
pub mod look;
mod running;
mod script;

const USAGE: &str = "usage: lotbook check FILE...
       lotbook show FILE...
       lotbook run SCRIPT
       lotbook help
";

/// Runs a program. The process is to end with the status that is given: that of failure where something was wrong, which has been
/// said.
pub fn run<R: Files + Env + Print + Eprint + AllocGlobal, P: Program>(
    rt: &R,
    program: &P,
) -> ExitCode {
    match (Desk { rt, program }).obey() {
        Ok(status) => status,
        Err(reason) => {
            let _ = eprintln!(rt; "lotbook: {reason}");
            ExitCode::FAILURE
        }
    }
}

/// What all that is done needs: the system, and the program.
#[derive(Drop)]
pub(crate) struct Desk<'d, R, P> {
    pub(crate) rt: &'d R,
    pub(crate) program: &'d P,
}

impl<R: Files + Env + Print + Eprint + AllocGlobal, P: Program> Desk<'_, R, P> {
    // Does what the arguments say.
    fn obey(&self) -> io::Result<ExitCode> {
        let args = env::args(self.rt)?;
        let count = args.len();
        let mut words = args.skip(1);
        let Some(word) = words.next() else {
            return self.refuse("no command was given");
        };
        match word.as_str() {
            "help" | "--help" | "-h" => {
                print!(self.rt; "{}", self.program.help())?;
                Ok(ExitCode::SUCCESS)
            }
            "run" => match (words.next(), words.next()) {
                (Some(script), None) => self.run_script(script.as_str()),
                _ => self.refuse("run takes one script"),
            },
            word => match word.parse::<Command>() {
                Ok(_) if count == 2 => self.refuse("no file was given"),
                Ok(command) => self.look_at_all(command, words),
                Err(UnknownCommand) => self.refuse("there is no such command"),
            },
        }
    }

    // Says on standard error how the program is used.
    fn refuse(&self, why: &str) -> io::Result<ExitCode> {
        eprint!(self.rt; "lotbook: {why}\n{USAGE}")?;
        Ok(ExitCode::FAILURE)
    }

    // Looks at every file. All has to be well with all of them; to show one, it is enough that it can be read.
    fn look_at_all(&self, command: Command, paths: Skip<Args>) -> io::Result<ExitCode> {
        let mut status = ExitCode::SUCCESS;
        for path in paths {
            match (command, self.look(command, path.as_str())?) {
                (_, Some(Seen::Good)) | (Command::Show, Some(Seen::Refused)) => {}
                (Command::Check, Some(Seen::Refused)) | (_, None) => status = ExitCode::FAILURE,
            }
        }
        Ok(status)
    }
}
