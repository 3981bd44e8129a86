// A row without reading the whole file: blocks are read in order, up to the first that is bad or that does not end below the asked word.

#![tactic(auto)]

ghost use Rattle.quick.specs.Quick.{Quick};

use table::row::{RowReply, row_read};

// Starts and tick code for a word, of any bytes, from block 0 and the blocks up to the one where the word would stand.
pub fn row_quick(file: &[u8], word: u32) -> RowReply
    ensures { Quick file.now word result }
{
    row_read(file, u64::from(word), word)
}
