// The parts of a file: slots, the block of jobs, the end of a block, and how many blocks and bytes there are.

#![tactic(auto)]

ghost use Rattle.std.specs.Prelude.{◌≡◌, map, ◌≤◌, ◌+◌, ◌*◌, min, length, take};
ghost use Rattle.blocks.specs.Sizes.{block_bytes, body_bytes, block_slots, most_rows};
ghost use Rattle.blocks.specs.File.{sealed, block_of, job_slot, row_slot, blocks_of};
ghost use Rattle.blocks.specs.Tab.{row_of};

use blocks::block::as_block;
use blocks::check::check_of;
use blocks::header::Header;
use blocks::put::{put, put_zeros};
use blocks::sizes::{BLOCK, BODY, HEADER, SLOT, SLOTS};
use sheet::Job;
use state::jobs::JobSheet;

// A job's slot: its four numbers in two bytes each.
fn job_slot(job: Job) -> [u8; SLOT]
    ensures { result ≡ job_slot job }
{
    let arrives = job.arrives.to_le_bytes();
    let fewest = job.fewest.to_le_bytes();
    let most = job.most.to_le_bytes();
    let due = job.due.to_le_bytes();
    [
        arrives[0], arrives[1], fewest[0], fewest[1], most[0], most[1], due[0], due[1],
    ]
}

// A row's slot: its word, starts and tick code, and two zeros. A mark's two low bytes are the starts and the tick code: it is one number,
// since the work slice that notes it is one of numbers.
pub fn row_slot(word: u32, mark: u32) -> [u8; SLOT]
    ensures { result ≡ row_slot (row_of word mark) }
{
    let w = word.to_le_bytes();
    let m = mark.to_le_bytes();
    [w[0], w[1], w[2], w[3], m[0], m[1], 0, 0]
}

// Ends a block whose header and slots stand up to a place: zeros behind them, and the check of all that.
// A part that is written stays a slice (tried: once an array lent from a slice ends, a proof knows its length alone).
pub fn seal(part: &mut [u8], at: usize)
    requires { (length part.old ≡ block_bytes) × (at ≤ body_bytes) }
    ensures { part.new ≡ sealed (take at part.old) }
{
    put_zeros(part, at, BODY);
    let check = check_of(as_block(part));
    put(part, BODY, &check.to_le_bytes());
}

// Writes block 0 of a file: the header, a slot a job, zeros and the check, each put behind what stands already.
pub fn write_jobs(part: &mut [u8], total: u16, sheet: &JobSheet)
    requires { length part.old ≡ block_bytes }
    ensures { part.new ≡ block_of (length sheet.now) 0 total (map job_slot sheet.now) }
{
    let count = sheet.count();
    let header = Header {
        jobs: count as u8,
        used: count as u8,
        number: 0,
        total,
    };
    put(part, 0, &header.to_bytes());
    for (s, numbers) in sheet.jobs().iter().enumerate() {
        put(part, HEADER + SLOT * s, &job_slot(Job::from(*numbers)));
    }
    seal(part, HEADER + SLOT * count);
}

// The slots that so many rows left fill in one block: all of them, where there are that many.
pub fn used_by(left: usize) -> u8
    ensures { (result ≡ min block_slots left) × (result ≤ block_slots) }
{
    left.min(SLOTS) as u8
}

// The blocks of a file of so many rows: block 0, and one for each 62 rows or fewer.
pub fn blocks_of(count: usize) -> usize
    requires { count ≤ most_rows }
    ensures { result ≡ blocks_of count }
{
    1 + count.div_ceil(SLOTS)
}

// The bytes of a file of so many rows.
pub fn bytes_needed(count: usize) -> usize
    requires { count ≤ most_rows }
    ensures { result ≡ block_bytes * blocks_of count }
{
    BLOCK * blocks_of(count)
}
