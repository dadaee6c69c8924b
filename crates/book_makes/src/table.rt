// A book as a table: a row for each lot, a place for every column and lot.
ghost use Rattle.std.specs.Prelude.{◌≤◌, vec_len};

use book::COLUMNS;

pub mod calls;

// The cells of a lot, one for each column.
type Row = [Option<i32>; COLUMNS as usize];

/// A book with a place for every column and lot, and none free.
///
/// A lot has a row of cells, one for each column, so `put` and `get` take constant time.
#[derive(Drop)]
pub struct TableBook {
    rows: Vec<Row>,
    ghost few: { vec_len rows ≤ 4096 },
}
