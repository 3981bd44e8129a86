// A table file read: whether it is of good form, and what it says of a word, of a row number, of a job in a state.

#![tactic(auto)]

pub mod judge;
pub mod leeway;
pub mod listing;
pub mod place;
pub mod row;
