// The sentences in which a refusal of a rule file is told.
//
// Nothing is promised of the words but that there are some for every finding and every file: that the finding is right is for
// the crates that examine a file to say.
#![tactic(auto)]

mod at;
pub mod faults;
pub mod violations;
