// The form of rows and of blocks: whether a row is of good form, whether a block is good as block 0, or as one of rows after the block before.

#![tactic(auto)]

pub mod block;
pub mod row;
