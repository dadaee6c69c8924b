// Lotbook on the command line: checks the layout of rule files, shows what they hold, and works on books of lots by a script.
#![tactic(auto)]

use desk::help::Help;
use desk::look::{Command, Program, Seen, print_verdict};
use report::verdict::Verdict;
use std::io::{self, Print};
use std::process::ExitCode;

const HELP: Help = Help {
    about: "lotbook looks at rule files and keeps books of lots.",
    check: "one line for each file: good, with how many nodes, names and
                          strings it has, or refused, with the number of the fault, its
                          place and a sentence that says what is wrong",
    show: "for each file its length, its contents, its names and strings
                          and its nodes as an indented tree, and then the line of check;
                          a damaged file is shown as far as it goes",
};

/// The program, which looks at the layout of a rule file alone.
// Kept: a program has its help and its look at a file, the one a text and the other generic, so it is no closure.
struct Lotbook;

impl Program for Lotbook {
    fn help(&self) -> Help {
        HELP
    }

    fn tell<R: Print>(
        &self,
        rt: &R,
        command: Command,
        path: &str,
        file: &[u8],
    ) -> io::Result<Seen> {
        print_verdict(rt, command, path, &Verdict::on_layout(file))
    }
}

fn main(rt: HostRuntime) -> ExitCode {
    desk::run(&rt, &Lotbook)
}
