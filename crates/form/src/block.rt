// One block of a file: good as block 0, or as a block of rows after the block before.
ghost use Rattle.std.specs.Prelude.{◌≡◌, ◌↔◌, ℕ, ◌≤◌, ◌<◌, ◌+◌, ◌-◌, ◌*◌, get_or, IsTrue, EachIndex, slice_index};
ghost use Rattle.plant.specs.Reflect.{Is};
ghost use Rattle.blocks.specs.Sizes.{block_bytes, header_bytes, block_slots, slot_bytes, most_jobs, most_blocks};
ghost use Rattle.blocks.specs.Bytes.{u32_at};
ghost use Rattle.blocks.specs.Fields.{Framed, slot_at, job_from};
ghost use Rattle.form.specs.BlockTest.{Zeros, Headed, JobsBlock, SlotGood, CountFits, Follows, RowsBlock, four_at, jobs_in};

use crate::row::row_good;
use blocks::check::check_of;
use blocks::header::Header;
use blocks::letters::letters_stand;
use blocks::numbers::{read16, read32};
use blocks::row::Row;
use blocks::sizes::{BLOCK, BODY, HEADER, SLOT, SLOTS};
use sheet::Job;
use state::jobs::{JOBS, JobSheet};

// Whether all bytes are 0. They are joined, so that many are asked at once: with `all`, which asks one at a time, a call takes up to a third longer
// on a file of few rows.
fn all_zero(bytes: &[u8]) -> bool
    ensures { IsTrue result ↔ EachIndex bytes.now (λ k. slice_index bytes.now k ≡ 0) }
{
    let mut joined: u8 = 0;
    for byte in bytes {
        joined |= *byte;
    }
    joined == 0
}

// Whether all bytes behind so many slots are 0, up to the check. The count is a byte of the block, so that it is no more than the slots is
// asked here, in framed and in slots_good: a header that is read may hold any count.
fn unused_zero(block: &[u8; BLOCK], used: u8) -> bool
    requires { used ≤ block_slots }
    ensures { Is result (Zeros block.now (header_bytes + slot_bytes * used)) }
{
    all_zero(&block[HEADER + SLOT * usize::from(used)..BODY])
}

// Whether a block's header is right: letters, counts and numbers.
fn headed(block: &[u8; BLOCK], header: Header) -> bool
    ensures { Is result (Headed header.jobs header.used header.number header.total block.now) }
{
    letters_stand(block) && Header::read(block) == header
}

// Whether all around the slots is right: the header, zeros behind the slots, and the check.
fn framed(block: &[u8; BLOCK], header: Header) -> bool
    requires { header.used ≤ block_slots }
    ensures { Is result (Framed slot_bytes header.jobs header.used header.number header.total block.now) }
{
    headed(block, header)
        && unused_zero(block, header.used)
        && read32(block, BODY) == check_of(block)
}

// The four numbers at a place.
fn four_at(block: &[u8; BLOCK], at: usize) -> [u16; 4]
    requires { at + slot_bytes ≤ block_bytes }
    ensures { result ≡ four_at block.now at }
{
    let arrives = read16(block, at);
    let fewest = read16(block, at + 2);
    let most = read16(block, at + 4);
    let due = read16(block, at + 6);
    [arrives, fewest, most, due]
}

// The job whose four numbers stand at a place.
pub fn job_at(block: &[u8; BLOCK], at: usize) -> Job
    requires { at + slot_bytes ≤ block_bytes }
    ensures { result ≡ job_from block.now at }
{
    Job::from(four_at(block, at))
}

// The jobs of block 0: those of as many slots as it has jobs.
pub fn sheet_in(block: &[u8; BLOCK]) -> JobSheet
    requires { get_or block.now 3 0 ≤ most_jobs }
    ensures { result ≡ jobs_in block.now }
{
    // The first slot's job fills the eight places, till each place has its own.
    let mut jobs = [four_at(block, HEADER); JOBS];
    for (s, job) in jobs.iter_mut().enumerate() {
        *job = four_at(block, HEADER + SLOT * s);
    }
    JobSheet::from_jobs(jobs, usize::from(block[3]))
}

// Whether a block is good as block 0: framed, with 1 to 8 jobs of good form. The 8 is a byte: JOBS, a usize, takes more stack (tried).
pub fn jobs_good(block: &[u8; BLOCK], total: u16) -> bool
    ensures { Is result (JobsBlock total block.now) }
{
    let n = block[3];
    let header = Header {
        jobs: n,
        used: n,
        number: 0,
        total,
    };
    if n < 1 || 8 < n || !framed(block, header) {
        return false;
    }
    for s in 0..usize::from(n) {
        if !job_at(block, HEADER + SLOT * s).is_good() {
            return false;
        }
    }
    true
}

// Whether a word is above that of the slot before slot s, if there is one.
fn above_before(block: &[u8; BLOCK], s: usize, word: u32) -> bool
    requires { s < block_slots }
    ensures { Is result (1 ≤ s → u32_at block.now (slot_at (s - 1)) < word) }
{
    s == 0 || read32(block, HEADER + SLOT * (s - 1)) < word
}

// Whether slot s holds a row of good form whose word is above the one before it in the block.
fn slot_good(block: &[u8; BLOCK], s: usize, sheet: &JobSheet) -> bool
    requires { s < block_slots }
    ensures { Is result (SlotGood sheet.now block.now s) }
{
    let at = HEADER + SLOT * s;
    let row = Row::read(block, at);
    block[at + 6] == 0
        && block[at + 7] == 0
        && row_good(sheet, row)
        && above_before(block, s, row.word)
}

// Whether so many slots hold rows of good form in ascending order.
fn slots_good(block: &[u8; BLOCK], used: u8, sheet: &JobSheet) -> bool
    requires { used ≤ block_slots }
    ensures { Is result ((s : ℕ) → s < used → SlotGood sheet.now block.now s) }
{
    for s in 0..usize::from(used) {
        if !slot_good(block, s, sheet) {
            return false;
        }
    }
    true
}

// Whether a block has the number of rows that its place asks: all slots, or 1 to all in the last block.
fn count_fits(header: Header) -> bool
    requires { header.number < most_blocks }
    ensures { Is result (CountFits header.used header.number header.total) }
{
    let used = usize::from(header.used);
    1 <= used && used <= SLOTS && (used == SLOTS || header.total <= header.number + 1)
}

// Whether the first word of block b follows the last word before: the first row has word 0, any other is above the row before.
fn follows(b: u16, last: u32, word: u32) -> bool
    requires { 1 ≤ b }
    ensures { Is result (Follows b last word) }
{
    if b == 1 { word == 0 } else { last < word }
}

// Whether a block is good as block b, of rows, after a block whose last word is given: count, frame, that its rows follow, and the rows.
pub fn rows_follow(block: &[u8; BLOCK], b: u16, total: u16, last: u32, sheet: &JobSheet) -> bool
    requires { (1 ≤ b) × (b < most_blocks) }
    ensures { Is result (RowsBlock sheet.now total b last block.now) }
{
    let header = Header {
        jobs: sheet.count() as u8,
        used: block[3],
        number: b,
        total,
    };
    count_fits(header)
        && framed(block, header)
        && follows(b, last, read32(block, HEADER))
        && slots_good(block, header.used, sheet)
}
