// Names and strings: of each cause of a fault the lowest place, and the first fault among them.
#![tactic(auto)]

pub mod faults;
pub mod spelling;
