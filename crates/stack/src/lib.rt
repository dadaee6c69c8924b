// Stacks by one text, for every kind of entry: the entries in use are the first of the lent slots.
//
// Proved of every type of entry: a push puts the entry above those in use, or is refused where no slot is left; a pop gives the
// topmost back; a read gives the entry at a place. What slots above those in use hold is not part of a stack.
// Kept: slots and count are two parameters, since a guard holds the count alone while the slots are read and written.
#![tactic(auto)]

ghost use Rattle.stack.specs.Stacks.{Pushed, Popped, Read};

use std::error::Error;
use std::fmt;

/// No slot is left for an entry.
#[derive(Clone, Copy, PartialEq, Eq, Debug)]
pub struct Full;

impl fmt::Display for Full {
    fn fmt<W: fmt::Write>(&self, f: &mut fmt::Formatter<W>) -> fmt::Result {
        write!(f, "no slot is left")
    }
}

impl Error for Full {}

/// Puts an entry on top; refused, and nothing changed, where no slot is left.
pub fn push<T: Copy>(slots: &mut [T], used: &mut usize, entry: T) -> Result<(), Full>
    ensures { Pushed result slots.old used.old entry slots.new used.new }
{
    if *used >= slots.len() {
        return Err(Full);
    }
    slots[*used] = entry;
    *used += 1;
    Ok(())
}

/// Takes the topmost entry; none where nothing is in use, or more than there are slots.
pub fn pop<T: Copy>(slots: &[T], used: &mut usize) -> Option<T>
    ensures { Popped result slots.now used.old used.new }
{
    let top = used.checked_sub(1)?;
    let entry = *slots.get(top)?;
    *used = top;
    Some(entry)
}

/// The entry at a place, counted from the bottom, as it lies there; none past the entries in use.
pub fn read<T>(slots: &[T], used: usize, place: usize) -> Option<&T>
    ensures { Read result slots.now used place }
{
    if place < used { slots.get(place) } else { None }
}
