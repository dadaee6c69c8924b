// Two makes of book: a table, and slips.
//
// Proved here: each opens empty, and each call answers and leaves exactly what its meaning says. All memory is asked for when a
// book is made, so a call never wants any.
#![tactic(auto)]

mod slip;
pub mod slips;
pub mod table;
