// Sheets, states and events by value: a sheet of numbers, the event of a byte, the bits of jobs, a state and its word; and why a call refuses.

#![tactic(auto)]

pub mod bits;
pub mod event;
pub mod jobs;
pub mod refusal;
pub mod status;
pub mod word;
