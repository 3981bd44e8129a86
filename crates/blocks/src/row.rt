// A row as a file holds it: word, byte of starts, tick code. The code is a byte: a row not yet judged has any there, and the reply to C has it.
ghost use Rattle.std.specs.Prelude.{◌≡◌, ◌≤◌, ◌+◌, length};

use crate::numbers::read32;

#[derive(Clone, Copy)]
pub struct Row {
    pub word: u32,
    pub starts: u8,
    pub tick: u8,
}

impl Row {
    ghost use Rattle.blocks.specs.Fields.{row_from};
    ghost use Rattle.blocks.specs.Rows.{entry_of};

    // The row that stands at a place.
    pub fn read(bytes: &[u8], at: usize) -> Row
        requires { at + 6 ≤ length bytes.now }
        ensures { entry_of result ≡ row_from bytes.now at }
    {
        Row {
            word: read32(bytes, at),
            starts: bytes[at + 4],
            tick: bytes[at + 5],
        }
    }
}
