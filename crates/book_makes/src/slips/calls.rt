// How a book of slips is made, and its calls.
ghost use Rattle.std.specs.Prelude.{◌≡◌, min, IfErr, IfOk, Ok, Some};
ghost use Rattle.book.specs.Meanings.{with_room, done, left};
ghost use Rattle.book.specs.Spots.{IsIn};
ghost use Rattle.book_makes.specs.Piles.{Found, IsGap};
ghost use Rattle.book_makes.specs.Slips.{slips_meaning, empty_slips};

use super::SlipsBook;
use crate::slip::{fill_in, find_slip, rank};
use book::fault::BookFault;
use book::spot::{Spot, find_spot};
use book::{Book, MOST_LOTS};
use std::alloc::{AllocError, Global};

// A get looks through the slips where there are no more than this.
const FEW: usize = 10;

impl SlipsBook {
    /// A book without a value, of so many lots, cut at 4,096, and so many slips. `Err` says that memory is wanting.
    pub fn new(heap: Global, lots: u32, slips: u32) -> Result<SlipsBook, AllocError>
        ensures { IfOk result (λ book. slips_meaning book ≡ empty_slips (min lots 4096) slips) }
    {
        let pile = Vec::with_capacity(heap, slips as usize)?;
        Ok(SlipsBook {
            lots: lots.min(MOST_LOTS),
            most: slips,
            pile,
        })
    }

    // Where the slip of a spot is, or where it would go.
    fn find(&self, spot: Spot) -> Result<usize, usize>
        requires { IsIn self.now.lots spot }
        ensures found { IfOk result (λ i. Found (Some i) self.now.pile.items spot) }
        ensures absent { IfErr result (IsGap self.now.pile.items spot) }
    {
        self.pile.binary_search_by_key(
            &rank(spot.column, spot.lot),
            |slip| rank(slip.column, slip.lot),
        )
    }

    // Fills in the slip of a spot, anew where there is one.
    fn put_at(&mut self, spot: Spot, value: i32) -> Result<(), BookFault>
        requires { IsIn self.old.lots spot }
        ensures answer { result ≡ done (with_room (slips_meaning self.old) (Ok spot)) }
        ensures after { slips_meaning self.new ≡ left (slips_meaning self.old) value (with_room (slips_meaning self.old) (Ok spot)) }
    {
        let slip = fill_in(spot, value);
        match self.find(spot) {
            Ok(i) => self.pile[i] = slip,
            Err(i) => {
                if self.pile.len() >= self.most as usize {
                    return Err(BookFault::NoPlace);
                }
                // There is room, so it cannot fail.
                let filled: Result<_, _> = self.pile.insert(i, slip);
                filled.unwrap();
            }
        }
        Ok(())
    }

    // The index of the slip of a spot.
    //
    // Kept: a few slips are looked through, since halving took up to twice as many steps in a dump of a book of few.
    #[tactic(auto, using(crate::proofs::Orders::none_in_gap))]
    fn look_up(&self, spot: Spot) -> Option<usize>
        requires { IsIn self.now.lots spot }
        ensures { Found result self.now.pile.items spot }
    {
        if self.pile.len() <= FEW {
            return find_slip(self.pile.as_slice(), spot);
        }
        self.find(spot).ok()
    }

    // The value on the slip of a spot.
    #[tactic(auto, using(crate::proofs::Heaps::value_none))]
    fn get_at(&self, spot: Spot) -> Option<i32>
        requires { IsIn self.now.lots spot }
        ensures { result ≡ (slips_meaning self.now).value spot.column spot.lot }
    {
        let i = self.look_up(spot)?;
        Some(self.pile[i].value)
    }
}

impl Book for SlipsBook {
    ghost meaning = { slips_meaning };

    ghost few = { λ book. book.few };

    fn lots(&self) -> u32 {
        self.lots
    }

    fn put(&mut self, column: u32, lot: i32, value: i32) -> Result<(), BookFault> {
        let spot = find_spot(self.lots, column, lot)?;
        self.put_at(spot, value)
    }

    fn get(&self, column: u32, lot: i32) -> Result<Option<i32>, BookFault> {
        let spot = find_spot(self.lots, column, lot)?;
        Ok(self.get_at(spot))
    }
}
