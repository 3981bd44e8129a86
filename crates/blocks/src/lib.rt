// Numbers in bytes, the letters, the header and the check of a block, and its rows. Above it stand the writer, and the reader,
// which compares; specs/File.antt says what the bytes of a file are.

#![tactic(auto)]

pub mod block;
pub mod check;
pub mod header;
pub mod letters;
pub mod numbers;
pub mod put;
pub mod row;
pub mod sizes;
