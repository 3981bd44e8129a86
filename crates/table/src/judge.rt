// The blocks of a file read in order: up to a bad one, to the end, or to where a word would stand.
ghost use Rattle.std.specs.Prelude.{◌≡◌, ◌≤◌, ◌<◌, ◌+◌, ◌*◌, List, length};
ghost use Rattle.plant.specs.Reflect.{Is};
ghost use Rattle.sheet.specs.Model.{Sheet};
ghost use Rattle.sheet.specs.Table.{Entry};
ghost use Rattle.blocks.specs.Sizes.{block_bytes, most_blocks};
ghost use Rattle.form.specs.BlockTest.{RowsBlock};
ghost use Rattle.table.specs.Reading.{block_at, good, Says};
ghost use Rattle.table.specs.BlockRight.{before};
ghost use Rattle.table.specs.Places.{GoodFile};
ghost use Rattle.table.specs.Judging.{Opens, JudgedTo, Judged, IsRefusalFor};

use crate::place::Rows;
use blocks::block::as_block;
use blocks::numbers::read32;
use blocks::sizes::{BLOCK, HEADER, SLOT, SLOTS};
use form::block::{jobs_good, rows_follow, sheet_in};
use state::jobs::JobSheet;
use state::refusal::Refusal;

// The lowest bad block of a file.
#[derive(Clone, Copy)]
pub struct BadBlock(pub u32);

impl From<BadBlock> for Refusal {
    ghost from_gives = { IsRefusalFor };

    fn from(bad: BadBlock) -> Refusal {
        Refusal::BadBlock(bad.0)
    }
}

// A word past all others: for it the whole file is read.
pub const PAST_ALL: u64 = 4294967296;

// The fewest and the most bytes of a file.
const FEWEST: usize = 2 * BLOCK;

const MOST: usize = 128 * BLOCK;

// Block b of a file.
pub(crate) fn block_at(file: &[u8], b: usize) -> &[u8; BLOCK]
    requires { (b < most_blocks) × (block_bytes * b + block_bytes ≤ length file.now) }
    ensures { result.now ≡ block_at file.now b }
{
    let at = BLOCK * b;
    as_block(&file[at..at + BLOCK])
}

// Whether a file has a length that files have, and a good block 0.
fn opens(file: &[u8]) -> bool
    ensures { Is result (Opens file.now) }
{
    let bytes = file.len();
    bytes % BLOCK == 0
        && FEWEST <= bytes
        && bytes <= MOST
        && jobs_good(block_at(file, 0), (bytes / BLOCK) as u16)
}

// Whether block b, of rows, is good after the block before. For block 1 the last word before is read and not asked.
fn rows_good(file: &[u8], b: usize, total: usize, sheet: &JobSheet) -> bool
    requires { (1 ≤ b) × ((b < total) × ((total ≤ most_blocks) × (length file.now ≡ block_bytes * total))) }
    ensures { Is result (RowsBlock sheet.now total b (before file.now b) (block_at file.now b)) }
{
    let last = read32(file, BLOCK * (b - 1) + (HEADER + SLOT * (SLOTS - 1)));
    rows_follow(block_at(file, b), b as u16, total as u16, last, sheet)
}

// The sheet of a good file. On its own, so that its stack is gone when the sheet is used.
#[inline(never)]
pub fn sheet_of(file: &[u8]) -> JobSheet
    requires { GoodFile file.now }
    ensures { (σ : Sheet) (rows : List Entry) → Says file.now (good σ rows) → result ≡ σ }
{
    sheet_in(block_at(file, 0))
}

// The last block read for a word, where block 0 is good: the first that does not end below the word, or the last of the file.
// The sheet is read in place, and not by sheet_of: a call here costs 50 bytes of stack more (tried).
fn last_after_first(file: &[u8], word: u64) -> Result<u32, BadBlock>
    requires { Opens file.now }
    ensures { JudgedTo file.now word result }
{
    let total = file.len() / BLOCK;
    let sheet = sheet_in(block_at(file, 0));
    for b in 1..total {
        if !rows_good(file, b, total, &sheet) {
            return Err(BadBlock(b as u32));
        }
        if word <= u64::from(Rows::read(file, b).last_word()) {
            return Ok(b as u32);
        }
    }
    Ok((total - 1) as u32)
}

// The last block of a file read for a word, or the first that is bad. On its own, so that its stack is gone when a row is looked up.
// The block is a u32, as a bad one is: with a usize the answer takes more stack (tried).
#[inline(never)]
fn last_block(file: &[u8], word: u64) -> Result<u32, BadBlock>
    ensures { JudgedTo file.now word result }
{
    if !opens(file) {
        return Err(BadBlock(0));
    }
    last_after_first(file, word)
}

// The rows of the blocks of a file read for a word.
pub fn read_for(file: &[u8], word: u64) -> Result<Rows<'_>, BadBlock>
    ensures { Judged file.now word result }
{
    let b = last_block(file, word)?;
    Ok(Rows::read(file, b as usize))
}
