// The verdict on a file: good, or refused, with a sentence that says what is wrong and where.
//
// There are two: by the layout alone, and by the rules of the language too.
ghost use Rattle.std.specs.Prelude.{◌≡◌, is_ok};
ghost use Rattle.checker.specs.Checked.{Checking};
ghost use Rattle.layout.specs.Readers.{file_of};
ghost use Rattle.rule_file.specs.Verdict.{Examined};

use checker::{Refusal, check};
use finding::Finding;
use layout::fault::FileFault;
use layout::reader::Reader;
use node_rules::types::Ty;
use nodes::kind::Kind;
use rule::Rule;
use rule_file::examine;
use sentences::{faults, violations};
use std::fmt;
use wording::text::{Phrase, Piece, Sentence, Three};

/// What a look at a good file gives.
pub trait Found {
    /// What was found of node `i`, in words.
    fn marks<'a>(&self, i: u32) -> Phrase<'a>;
}

/// Why a file is refused.
pub trait Reason {
    /// The number of the cause, and its place.
    fn answer(&self) -> (u32, u32);

    /// The sentence that says what is wrong and where.
    fn sentence<'a>(&self, reader: Reader<'a>) -> Sentence<'a>;
}

/// What a look at a file says: what was found, or why the file is refused.
#[derive(Drop)]
pub struct Verdict<'a, G, R> {
    reader: Reader<'a>,
    found: Result<G, R>,
}

impl<'a> Verdict<'a, Reader<'a>, Finding<FileFault>> {
    /// Examines the layout of a file.
    pub fn on_layout(file: &'a [u8]) -> Verdict<'a, Reader<'a>, Finding<FileFault>>
        ensures found { Examined result.found file.now }
        ensures over { file_of result.reader ≡ file.now }
    {
        Verdict::of(file, examine(file))
    }
}

impl<'a> Verdict<'a, Rule<'a>, Refusal> {
    /// Checks a file.
    pub fn on(file: &'a [u8]) -> Verdict<'a, Rule<'a>, Refusal>
        ensures found { Checking result.found file.now }
        ensures over { file_of result.reader ≡ file.now }
    {
        // Kept: made in place, since a rule that is handed to `of` is one more table that is cleared and copied.
        let reader = Reader::over(file);
        Verdict {
            reader,
            found: check(file),
        }
    }
}

impl<'a, G, R> Verdict<'a, G, R> {
    // The verdict on a file of which this was found.
    fn of(file: &'a [u8], found: Result<G, R>) -> Verdict<'a, G, R>
        ensures found { result.found ≡ found }
        ensures over { file_of result.reader ≡ file.now }
    {
        Verdict {
            reader: Reader::over(file),
            found,
        }
    }

    /// Whether the file is good.
    pub fn is_good(&self) -> bool
        ensures { result ≡ is_ok self.now.found }
    {
        self.found.is_ok()
    }

    /// A reader over the file, good or not.
    pub fn reader(&self) -> Reader<'a>
        ensures { result ≡ self.now.reader }
    {
        self.reader
    }
}

impl<'a, G: Found, R> Verdict<'a, G, R> {
    /// What was found of node `i`, in words. Nothing where the file is refused.
    pub fn marks(&self, i: u32) -> Phrase<'a> {
        match &self.found {
            Ok(found) => found.marks(i),
            Err(_) => Phrase::default(),
        }
    }
}

impl<'a, G, R: Reason> Verdict<'a, G, R> {
    // The words of the verdict, and the sentence that says why.
    fn told(&self) -> (Phrase<'a>, Sentence<'a>) {
        match &self.found {
            Ok(_) => (counts(self.reader), Sentence::default()),
            Err(reason) => (refused(reason.answer()), reason.sentence(self.reader)),
        }
    }
}

impl<G, R: Reason> fmt::Display for Verdict<'_, G, R> {
    fn fmt<W: fmt::Write>(&self, f: &mut fmt::Formatter<W>) -> fmt::Result {
        let (verdict, why) = self.told();
        write!(f, "{verdict}{why}")
    }
}

impl Reason for Finding<FileFault> {
    fn answer(&self) -> (u32, u32) {
        Finding::answer(self)
    }

    fn sentence<'a>(&self, reader: Reader<'a>) -> Sentence<'a> {
        faults::sentence(reader, *self)
    }
}

impl Reason for Refusal {
    fn answer(&self) -> (u32, u32) {
        match self {
            Refusal::Fault(finding) => finding.answer(),
            Refusal::Violation(finding) => finding.answer(),
        }
    }

    fn sentence<'a>(&self, reader: Reader<'a>) -> Sentence<'a> {
        match self {
            Refusal::Fault(finding) => faults::sentence(reader, *finding),
            Refusal::Violation(finding) => violations::sentence(reader, *finding),
        }
    }
}

// The number and the place of a refusal.
fn refused<'a>(answer: (u32, u32)) -> Phrase<'a> {
    let (number, place) = answer;
    Phrase::two(
        Piece::Number("refused ", number as i64, " "),
        Piece::Number("", place as i64, ": "),
    )
}

fn counts<'a>(reader: Reader<'a>) -> Phrase<'a> {
    Three(
        Piece::count("good, ", reader.node_count(), " nodes"),
        Piece::Number(", ", reader.names().count() as i64, " names"),
        Piece::Number(", ", reader.strings().count() as i64, " strings"),
    )
}

/// The layout tells nothing of a node beyond its fields.
impl Found for Reader<'_> {
    fn marks<'a>(&self, _: u32) -> Phrase<'a> {
        Phrase::default()
    }
}

/// A rule tells the type of an expression, and the node that declares the name of a node.
impl Found for Rule<'_> {
    fn marks<'a>(&self, i: u32) -> Phrase<'a> {
        match self.reader.node(i as usize) {
            Some(node) => Phrase::two(
                type_mark(self, node.kind, i).unwrap_or_default(),
                declared_mark(self, node.kind, i).unwrap_or_default(),
            ),
            None => Phrase::default(),
        }
    }
}

// The type of an expression that has one.
fn type_mark<'a>(rule: &Rule, kind: Kind, i: u32) -> Option<Piece<'a>> {
    if !kind.is_expression() {
        return None;
    }
    let words = match rule.type_of(i as usize)? {
        Ty::Int => ": int",
        Ty::Long => ": long",
        Ty::Bool => ": bool",
    };
    Some(Piece::Words(words))
}

// The node that declares the name of a node that uses one.
fn declared_mark<'a>(rule: &Rule, kind: Kind, i: u32) -> Option<Piece<'a>> {
    if !kind.uses_name() {
        return None;
    }
    let declaration = rule.meant(i as usize)?;
    Some(Piece::count(", declared at node ", declaration, ""))
}
