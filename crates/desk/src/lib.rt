// Step: an event taken or refused, and the desk record that follows the events.

#![tactic(auto)]

pub mod desk;
mod moves;
pub mod step;
