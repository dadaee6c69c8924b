// The help text.
use std::fmt;

/// How the help texts of programs differ: in what a program does, and in what its commands tell of a file.
#[derive(Clone, Copy, PartialEq, Eq, Debug)]
pub struct Help {
    pub about: &'static str,
    pub check: &'static str,
    pub show: &'static str,
}

impl fmt::Display for Help {
    fn fmt<W: fmt::Write>(&self, f: &mut fmt::Formatter<W>) -> fmt::Result {
        let Help { about, check, show } = self;
        write!(f, "{about}\n\nusage:\n  lotbook check FILE...   {check}\n")?;
        write!(f, "  lotbook show FILE...    {show}\n{REST}")
    }
}

const REST: &str = "  lotbook run SCRIPT      does what the lines of a script say
  lotbook help            this text; also -h and --help

A file that cannot be read is named on standard error, and the others are still done.

A script has one of these on a line; blank lines and lines that begin with # are passed over:
  book table ROWS         makes a book with a place for every column and lot
  book slips LOTS SLIPS   makes a book with so many places for any column and lot
  put COLUMN LOT VALUE    prints done, or refused with a number and 0
  get COLUMN LOT          prints value with the value, none, or refused
  lots                    prints lots with their number
  dump                    prints LOT COLUMN VALUE for each value, and end
  check FILE, show FILE   as above
A column is micron, yield, staple, strength, vm, colour, reserve or bales, or a number.
A line that cannot be done is named on standard error and ends the run.

exit status:
  0  all is well
  1  check: a file was refused or could not be read
     show: a file could not be read
     run: a line could not be done
     any: the command is unknown, a file is wanting or the output could not be written

example:
  lotbook check micron.rule
  micron.rule: good, 13 nodes, 3 names, 1 strings
";
