// Where in a book a call leads.
ghost use Rattle.std.specs.Prelude.{◌≡◌, IfOk};
ghost use Rattle.book.specs.Spots.{IsIn, spot_of};

use crate::COLUMNS;
use crate::fault::BookFault;

/// A column and a lot. `find_spot` gives only those that a book has.
#[derive(Clone, Copy, PartialEq, Eq, Hash, Debug)]
pub struct Spot {
    pub column: u32,
    pub lot: u32,
}

/// The spot of a column and a lot in a book of `lots` lots.
///
/// A column over 7 is refused first, then a lot below 0 or not below `lots`.
pub fn find_spot(lots: u32, column: u32, lot: i32) -> Result<Spot, BookFault>
    ensures value { result ≡ spot_of lots column lot }
    ensures inside { IfOk result (IsIn lots) }
{
    if column >= COLUMNS {
        return Err(BookFault::Column);
    }
    let there = u32::try_from(lot).ok().filter(|lot| *lot < lots);
    let lot = there.ok_or(BookFault::Lot)?;
    Ok(Spot { column, lot })
}
