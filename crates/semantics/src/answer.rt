// What the calls of a runner answer.
use crate::stop::Stop;
use checker::Refusal;
use finding::Finding;

/// How a go ends.
#[derive(Clone, Copy, PartialEq, Eq, Debug)]
pub enum Ending {
    Finished,
    /// a node is next to begin, and the budget is used up
    Spent,
    /// the cause and the node
    Stopped(Finding<Stop>),
}

/// Why a call is refused.
#[derive(Clone, Copy, PartialEq, Eq, Debug)]
pub enum Denial {
    /// a load or a begin while a rule is under way
    UnderWay,
    /// a go or a close while none is
    Idle,
    /// a load of a file that is not accepted
    File(Refusal),
}

/// What a call answers that is not refused.
#[derive(Clone, Copy, PartialEq, Eq, Debug)]
pub enum Answer {
    /// a load, a begin or a close was done
    Done,
    /// a go ended so, after so many units
    Went { how: Ending, units: u32 },
}
