// What passes between a rule and its book.
use book::spot::Spot;

/// The imports that there are.
#[derive(Clone, Copy, PartialEq, Eq, Debug)]
pub enum Import {
    Put,
    Get,
    Held,
}

/// What a call of an import asks for: the number of the string that names the column, the lot, and for a put the value.
#[derive(Clone, Copy, PartialEq, Eq, Debug)]
pub enum Request {
    Put { column: usize, lot: i32, value: i32 },
    Get { column: usize, lot: i32 },
    Held { column: usize, lot: i32 },
}

/// What passed between a rule and its book, by column and lot.
#[derive(Clone, Copy, PartialEq, Eq, Debug)]
pub enum Event {
    /// a put was taken, of this value
    Took { spot: Spot, value: i32 },
    /// a get was told the value, or that there is none
    Told { spot: Spot, value: Option<i32> },
    /// a held was told whether there is one
    Knew { spot: Spot, there: bool },
}
