// The head of a file: its size, its edition, its contents.
ghost use Rattle.std.specs.Prelude.{◌≡◌, not, length};
ghost use Rattle.finding.specs.Checks.{found, passes_unless};
ghost use Rattle.finding.specs.Search.{passing};
ghost use Rattle.layout.specs.Faults.{first_among, head_causes};
ghost use Rattle.layout.specs.Head.{sized, edition_one, contiguous, counted};
ghost use Rattle.layout.specs.Readers.{file_of};

use finding::Finding;
use layout::fault::FileFault;
use layout::reader::{Contents, Reader};
use nodes::bytes::byte;

fn is_sized(file: &[u8]) -> bool
    ensures { result ≡ sized file.now }
{
    (28..=24_576).contains(&file.len())
}

fn is_edition_one(file: &[u8]) -> bool
    ensures { result ≡ edition_one file.now }
{
    byte(file, 0) == 1 && byte(file, 1) == 0 && byte(file, 2) == 0 && byte(file, 3) == 0
}

// The sums are of 64 bits, so that none wraps.
fn is_contiguous(size: usize, c: Contents) -> bool
    ensures { result ≡ contiguous size c }
{
    c.nodes.offset == 28
        && c.names.offset as u64 == c.nodes.offset as u64 + c.nodes.length as u64
        && c.strings.offset as u64 == c.names.offset as u64 + c.names.length as u64
        && size as u64 == c.strings.offset as u64 + c.strings.length as u64
}

fn is_counted(c: Contents) -> bool
    ensures { result ≡ counted c }
{
    (1..=16_384).contains(&c.nodes.length) && c.nodes.length % 16 == 0
}

// A check of the file as a whole.
fn whole(cause: FileFault, good: bool) -> Result<(), Finding<FileFault>>
    ensures { result ≡ passes_unless (found cause (passing (not good) 0)) }
{
    Finding::absent(cause, (!good).then_some(0))
}

/// Checks the head; it fails with its first fault, which is of the file as a whole.
#[tactic(auto, unfolding(finding::specs::Search::lowest))]
pub(crate) fn check(reader: &Reader) -> Result<(), Finding<FileFault>>
    ensures { result ≡ passes_unless (first_among head_causes (file_of reader.now)) }
{
    let file = reader.file();
    whole(FileFault::FileSize, is_sized(file))?;
    whole(FileFault::Edition, is_edition_one(file))?;
    let contents = reader.contents();
    whole(FileFault::BodyOrder, is_contiguous(file.len(), contents))?;
    whole(FileFault::NodeCount, is_counted(contents))
}
