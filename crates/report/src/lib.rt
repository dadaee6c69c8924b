// What the program says of a rule file: the verdict on it in a sentence, and the listing of all that it holds.
//
// Nothing is promised of the words: that the file is refused, and where, is for the crates that examine it to say.
#![tactic(auto)]

pub mod listing;
pub mod verdict;
