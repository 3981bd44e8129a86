// Lines printed on a page, a lent slice that is filled from the front on: each method puts its bytes behind what is printed.

#![tactic(auto)]

pub mod bytes;
pub mod page;
mod rows;
