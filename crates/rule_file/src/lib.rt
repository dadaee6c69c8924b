// A rule file is taken in, or refused at its first fault.
//
// Proved of `examine`, whatever the bytes: it refuses with exactly the first fault of the definitions (of the first
// cause that applies, the lowest place), or gives a reader over that very file, of which then every name, every string
// and every node is as it should be (`WellFormed`). Not looked at here: what names mean, types, and the rules of the
// language.
#![tactic(auto)]

ghost use Rattle.std.specs.Prelude.{◌≡◌};
ghost use Rattle.layout.specs.Readers.{file_of};
ghost use Rattle.rule_file.specs.Verdict.{Judged, Examined};
ghost use Rattle.rule_file.specs.Worked.{Cases};

use finding::Finding;
use layout::fault::FileFault;
use layout::reader::Reader;

mod head;

// Checks the file that a reader is over; it fails with the file's first fault.
fn judge(reader: &Reader) -> Result<(), Finding<FileFault>>
    ensures { Judged result (file_of reader.now) }
{
    head::check(reader)?;
    texts::faults::check(reader)?;
    tree::faults::check(reader)
}

/// Examines a file: a reader over it, or its first fault.
pub fn examine(file: &[u8]) -> Result<Reader<'_>, Finding<FileFault>>
    ensures { Examined result file.now }
{
    let reader = Reader::over(file);
    judge(&reader)?;
    Ok(reader)
}

/// The worked cases, which the definitions compute. The call does nothing: its contract is the cases.
pub fn cases_stand()
    ensures { Cases }
{}
