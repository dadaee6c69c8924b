// How a table is made, and its calls.
ghost use Rattle.std.specs.Prelude.{◌≡◌, ◌<◌, ◌≤◌, min, length, slice_set, Some, vec_len, IfOk};
ghost use Rattle.book.specs.Meanings.{written};
ghost use Rattle.book.specs.Spots.{IsIn};
ghost use Rattle.book_makes.specs.Tables.{table_meaning, empty_table};

use super::{Row, TableBook};
use book::fault::BookFault;
use book::spot::{Spot, find_spot};
use book::{Book, COLUMNS, MOST_LOTS};
use std::alloc::{AllocError, Global};

impl TableBook {
    /// A table without a value, of so many rows, one to a lot, cut at 4,096. `Err` says that memory is wanting.
    pub fn new(heap: Global, rows: u32) -> Result<TableBook, AllocError>
        ensures { IfOk result (λ book. table_meaning book ≡ empty_table (min rows 4096)) }
    {
        TableBook::empty(heap, rows.min(MOST_LOTS))
    }

    // A table without a value.
    fn empty(heap: Global, lots: u32) -> Result<TableBook, AllocError>
        requires { lots ≤ 4096 }
        ensures { IfOk result (λ book. table_meaning book ≡ empty_table lots) }
    {
        let rows = vec![in heap; [None; COLUMNS as usize]; lots as usize]?;
        Ok(TableBook { rows })
    }

    // Sets the cell of a spot.
    fn write(&mut self, spot: Spot, value: i32)
        requires { IsIn (vec_len self.old.rows) spot }
        ensures { table_meaning self.new ≡ written (table_meaning self.old) spot value }
    {
        fill(&mut self.rows[spot.lot as usize], spot.column, value);
    }
}

// Sets the cell of a column in the row of a lot.
fn fill(row: &mut Row, column: u32, value: i32)
    requires { column < 8 }
    ensures set { row.new ≡ slice_set row.old column (Some value) }
    ensures wide { length row.old ≡ 8 }
{
    row[column as usize] = Some(value);
}

impl Book for TableBook {
    ghost meaning = { table_meaning };

    ghost few = { λ book. book.few };

    fn lots(&self) -> u32 {
        self.rows.len() as u32
    }

    fn put(&mut self, column: u32, lot: i32, value: i32) -> Result<(), BookFault> {
        let spot = find_spot(self.lots(), column, lot)?;
        self.write(spot, value);
        Ok(())
    }

    fn get(&self, column: u32, lot: i32) -> Result<Option<i32>, BookFault> {
        let spot = find_spot(self.lots(), column, lot)?;
        Ok(self.rows[spot.lot as usize][spot.column as usize])
    }
}
