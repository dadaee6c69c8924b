// The faults of a file.
ghost use Rattle.layout.specs.Faults.{number_of};

use finding::Numbered;

/// Why a file is refused before its rules are looked at, by number, in the order in which the causes are tried.
#[derive(Clone, Copy, PartialEq, Eq, Debug)]
pub enum FileFault {
    /// fewer than 28 bytes or more than 24,576
    FileSize = 1,
    /// byte 0 is not 1, or one of the bytes 1 to 3 is not 0
    Edition = 2,
    /// the bodies do not stand one after another from byte 28 to the end
    BodyOrder = 3,
    /// no node, part of a node, or more than 1,024 nodes
    NodeCount = 4,
    /// a name that is cut off, has no length from 1 to 31, or is the 256th
    NameLength = 5,
    /// a name that is no identifier, or a keyword
    NameText = 6,
    /// a name that equals a lower one
    NameRepeated = 7,
    /// a string that is cut off, longer than 63, holds a byte that is not allowed, or is the 256th
    StringText = 8,
    /// a field that its node's kind does not allow
    NodeFields = 9,
    /// a size of 0 or beyond the parent's end, or node 0 not spanning all
    NodeSize = 10,
    /// children of a wrong kind, order or number, or node 0 no program
    NodeChildren = 11,
    /// a node of depth 65
    NodeDepth = 12,
}

impl Numbered for FileFault {
    ghost number = { number_of };

    fn number_of(&self) -> u32 {
        *self as u32
    }
}
