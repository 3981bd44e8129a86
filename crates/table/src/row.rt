// The row of a word.
ghost use Rattle.std.specs.Prelude.{◌≡◌};
ghost use Rattle.table.specs.Replies.{IsRowReplyOf, row_reply_of, row_reply};
ghost use Rattle.table.specs.Read.{reading};
ghost use Rattle.table.specs.ReadFor.{AnswersFor};

use crate::judge::{PAST_ALL, read_for};
use blocks::row::Row;
use state::refusal::Refusal;

// A row's answer: number and detail, and on 0 the byte of starts and the tick code.
#[repr(C)]
#[derive(Clone, Copy)]
pub struct RowReply {
    pub number: u32,
    pub detail: u32,
    pub starts: u8,
    pub tick: u8,
}

// The reply to C: a row's marks, or a refusal's number and detail.
impl From<Result<Row, Refusal>> for RowReply {
    ghost from_gives = { IsRowReplyOf };

    fn from(row: Result<Row, Refusal>) -> RowReply {
        match row {
            Ok(row) => RowReply {
                number: 0,
                detail: 0,
                starts: row.starts,
                tick: row.tick,
            },
            Err(refusal) => RowReply {
                number: refusal.number(),
                detail: refusal.detail(),
                starts: 0,
                tick: 0,
            },
        }
    }
}

// The row with a word, among the rows of the blocks read for a word `until`.
fn row_in(file: &[u8], until: u64, word: u32) -> Result<Row, Refusal>
    ensures { AnswersFor file.now until (row_reply word) (row_reply_of result) }
{
    let rows = read_for(file, until)?;
    let i = rows.find(word).ok_or(Refusal::NoRow)?;
    Ok(rows.row(i))
}

// Starts and tick code for a word, among the rows of the blocks read for a word `until`, or the refusal.
pub fn row_read(file: &[u8], until: u64, word: u32) -> RowReply
    ensures { AnswersFor file.now until (row_reply word) result }
{
    RowReply::from(row_in(file, until, word))
}

// Starts and tick code for a word, of any bytes: the whole file is read first.
pub fn row(file: &[u8], word: u32) -> RowReply
    ensures { result ≡ row_reply word (reading file.now) }
{
    row_read(file, PAST_ALL, word)
}
