// A book as slips: each slip in use is a place, the others are free.
ghost use Rattle.std.specs.Prelude.{◌≡◌, ◌≤◌, true, vec_len, vec_capacity};
ghost use Rattle.book_makes.specs.Piles.{AreIn, IsInOrder, single};

use crate::slip::Slip;

pub mod calls;

/// A book of a given number of slips. A column and a lot have a place once a slip of theirs is filled in; the slips that are not
/// filled in are free. No two slips are of one column and lot.
///
/// The slips that are filled in lie in the order of their lots and columns. `put` and `get` look a slip up by halves, but a `get`
/// among few slips looks through them; putting a new one moves those after it.
#[derive(Drop)]
pub struct SlipsBook {
    lots: u32,
    most: u32,
    pile: Vec<Slip>,
    ghost few: { lots ≤ 4096 },
    ghost within: { vec_len pile ≤ most },
    ghost room: { most ≤ vec_capacity pile },
    ghost inside: { AreIn lots pile.items },
    ghost ordered: { IsInOrder pile.items },
    ghost one: { single pile.items ≡ true },
}
