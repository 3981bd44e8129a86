// All jobs, the count of rows, and one row.
ghost use Rattle.std.specs.Prelude.{◌≡◌, ◌≤◌, ◌+◌, ◌*◌, length};
ghost use Rattle.sheet.specs.Model.{Sheet};
ghost use Rattle.blocks.specs.Sizes.{block_bytes, header_bytes};
ghost use Rattle.blocks.specs.Bytes.{u16_at};
ghost use Rattle.blocks.specs.Tab.{tab};
ghost use Rattle.table.specs.Reading.{good, Says};
ghost use Rattle.table.specs.Replies.{Answers, IsListingReplyOf, listing_reply_of, listing_reply};
ghost use Rattle.table.specs.Read.{reading};

use crate::judge::{PAST_ALL, read_for};
use crate::place::Rows;
use blocks::numbers::read16;
use blocks::sizes::HEADER;
use state::refusal::Refusal;

// A listing's answer: number and detail, and on 0 the counts, the jobs' numbers (0 past the last job) and the row.
#[repr(C)]
#[derive(Clone, Copy)]
pub struct ListingReply {
    pub number: u32,
    pub detail: u32,
    pub jobs: u32,
    pub rows: u32,
    pub numbers: [u16; 32],
    pub word: u32,
    pub starts: u8,
    pub tick: u8,
}

// The reply to C: a listing as it is, or a refusal's number and detail.
impl From<Result<ListingReply, Refusal>> for ListingReply {
    ghost from_gives = { IsListingReplyOf };

    fn from(listed: Result<ListingReply, Refusal>) -> ListingReply {
        match listed {
            Ok(reply) => reply,
            Err(refusal) => ListingReply {
                number: refusal.number(),
                detail: refusal.detail(),
                jobs: 0,
                rows: 0,
                numbers: [0; 32],
                word: 0,
                starts: 0,
                tick: 0,
            },
        }
    }
}

// The 32 numbers of the first eight slots. Those past the last job are 0, since unused slots are.
fn numbers_of(file: &[u8]) -> [u16; 32]
    requires { block_bytes ≤ length file.now }
    ensures { result ≡ tab 32 (λ i. u16_at file.now (header_bytes + 2 * i)) }
{
    let mut numbers = [0; 32];
    for (i, number) in numbers.iter_mut().enumerate() {
        *number = read16(file, HEADER + 2 * i);
    }
    numbers
}

// The row of a number from 1, in a good file of these rows. It is made as the reply to C: a struct of its own would have the same fields.
fn listing_in(file: &[u8], rows: &Rows, row_number: u32) -> Result<ListingReply, Refusal>
    requires { (σ : Sheet) × Says file.now (good σ rows.now) }
    ensures { Answers file.now (listing_reply row_number) (listing_reply_of result) }
{
    let count = rows.count() as u32;
    if row_number < 1 || count < row_number {
        return Err(Refusal::NoRow);
    }
    let row = rows.row((row_number - 1) as usize);
    Ok(ListingReply {
        number: 0,
        detail: 0,
        jobs: u32::from(file[3]),
        rows: count,
        numbers: numbers_of(file),
        word: row.word,
        starts: row.starts,
        tick: row.tick,
    })
}

// The listing of a row number, or why there is none.
fn listed(file: &[u8], row_number: u32) -> Result<ListingReply, Refusal>
    ensures { listing_reply_of result ≡ listing_reply row_number (reading file.now) }
{
    let rows = read_for(file, PAST_ALL)?;
    listing_in(file, &rows, row_number)
}

// All jobs, the count of rows and the row of a number from 1, of any bytes: the whole file is read first.
pub fn listing(file: &[u8], row_number: u32) -> ListingReply
    ensures { result ≡ listing_reply row_number (reading file.now) }
{
    ListingReply::from(listed(file, row_number))
}
