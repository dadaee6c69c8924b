// A slip, its rank in a pile, and where in a pile of few the slip of a spot is.
ghost use Rattle.book_makes.specs.Piles.{Found, rank, slip_of};
ghost use Rattle.std.specs.Prelude.{◌≡◌};

use book::COLUMNS;
use book::spot::Spot;

/// A value with its column and lot.
#[derive(Clone, Copy, PartialEq, Eq, Debug)]
pub struct Slip {
    pub column: u32,
    pub lot: u32,
    pub value: i32,
}

// The slip of a spot with a value.
// Kept: a put brings a spot and a value, and nothing holds of the two.
pub(crate) fn fill_in(spot: Spot, value: i32) -> Slip
    ensures { result ≡ slip_of spot value }
{
    Slip {
        column: spot.column,
        lot: spot.lot,
        value,
    }
}

// The rank of a column and a lot, which go by lot and then by column.
pub(crate) fn rank(column: u32, lot: u32) -> u64
    ensures { result ≡ rank column lot }
{
    u64::from(COLUMNS) * u64::from(lot) + u64::from(column)
}

// The index of the first slip of a spot.
pub(crate) fn find_slip(pile: &[Slip], spot: Spot) -> Option<usize>
    ensures { Found result pile.now spot }
{
    for (i, slip) in pile.iter().enumerate() {
        if slip.column == spot.column && slip.lot == spot.lot {
            return Some(i);
        }
    }
    None
}
