// The header of a block: the letters, and the four numbers that a writer puts and a reader asks for together.
ghost use Rattle.std.specs.Prelude.{◌≡◌};

use crate::letters::LETTERS;
use crate::numbers::read16;
use crate::sizes::{BLOCK, HEADER};

// The numbers of a header: jobs, slots used, block number, number of blocks.
#[derive(Clone, Copy, PartialEq, Eq)]
pub struct Header {
    pub jobs: u8,
    pub used: u8,
    pub number: u16,
    pub total: u16,
}

impl Header {
    ghost use Rattle.blocks.specs.File.{header};
    ghost use Rattle.blocks.specs.Fields.{header_in};

    // The numbers that stand behind a block's letters.
    pub fn read(block: &[u8; BLOCK]) -> Header
        ensures { result ≡ header_in block.now }
    {
        Header {
            jobs: block[2],
            used: block[3],
            number: read16(block, 4),
            total: read16(block, 6),
        }
    }

    // The bytes before the slots: the letters, and the numbers behind them.
    pub fn to_bytes(self) -> [u8; HEADER]
        ensures { result ≡ header self.jobs self.used self.number self.total }
    {
        let number = self.number.to_le_bytes();
        let total = self.total.to_le_bytes();
        [
            LETTERS[0], LETTERS[1], self.jobs, self.used, number[0], number[1], total[0], total[1],
        ]
    }
}
