// How long a job's start can wait: A + D − W − now, below zero where it is too late to be sure.
ghost use Rattle.std.specs.Prelude.{◌≡◌, ◌≤◌, ◌+◌, List};
ghost use Rattle.plant.specs.Reflect.{Is};
ghost use Rattle.sheet.specs.Model.{Sheet, Names, job as job_number};
ghost use Rattle.sheet.specs.Table.{Entry};
ghost use Rattle.state.specs.Statuses.{number_of};
ghost use Rattle.table.specs.Reading.{good, Says};
ghost use Rattle.table.specs.Places.{GoodFile};
ghost use Rattle.table.specs.Replies.{Answers, IsLeewayReplyOf, ticks_left, leeway_reply_of, leeway_reply};
ghost use Rattle.table.specs.Read.{reading};

use crate::judge::{PAST_ALL, block_at, read_for};
use crate::place::Rows;
use blocks::sizes::{HEADER, SLOT};
use form::block::job_at;
use form::row::now_of;
use sheet::Job;
use state::bits::status_in;
use state::refusal::Refusal;
use state::status::Status;

// A leeway's answer: number and detail, and on 0 the ticks.
#[repr(C)]
#[derive(Clone, Copy)]
pub struct LeewayReply {
    pub number: u32,
    pub detail: u32,
    pub leeway: i32,
}

// The reply to C: the ticks, or a refusal's number and detail.
impl From<Result<i32, Refusal>> for LeewayReply {
    ghost from_gives = { IsLeewayReplyOf };

    fn from(ticks: Result<i32, Refusal>) -> LeewayReply {
        match ticks {
            Ok(leeway) => LeewayReply {
                number: 0,
                detail: 0,
                leeway,
            },
            Err(refusal) => LeewayReply {
                number: refusal.number(),
                detail: refusal.detail(),
                leeway: 0,
            },
        }
    }
}

// A + D − W − now, in 32 bits with a sign, where no step can leave the range.
fn left(job: Job, now: u8) -> i32
    requires { (job.arrives + job.due ≤ 255) × (job.most ≤ job.due) }
    ensures { result ≡ ticks_left job.arrives job.due job.most now }
{
    i32::from(job.arrives) + i32::from(job.due) - i32::from(job.most) - i32::from(now)
}

// Whether a job of this status was started.
fn was_started(status: Status) -> bool
    ensures { Is result (2 ≤ number_of status) }
{
    status == Status::Running || status == Status::Done
}

// Whether a good file has a job of this number.
fn has_job(file: &[u8], job: u32) -> bool
    requires { GoodFile file.now }
    ensures { (σ : Sheet) (rows : List Entry) → Says file.now (good σ rows) → Is result (Names σ job) }
{
    1 <= job && job <= u32::from(file[3])
}

// That job.
fn job_of(file: &[u8], job: u32) -> Job
    requires { (σ : Sheet) × (rows : List Entry) × Says file.now (good σ rows) × Names σ job }
    ensures { (σ : Sheet) (rows : List Entry) → Says file.now (good σ rows) → Names σ job → result ≡ job_number σ job }
{
    job_at(block_at(file, 0), HEADER + SLOT * (job - 1) as usize)
}

// The leeway of a job in a state, in a good file of these rows. The job is asked for first, then the row, then the job's status.
fn leeway_in(file: &[u8], rows: &Rows, word: u32, job: u32) -> Result<i32, Refusal>
    requires { (σ : Sheet) × Says file.now (good σ rows.now) }
    ensures { Answers file.now (leeway_reply word job) (leeway_reply_of result) }
{
    if !has_job(file, job) {
        return Err(Refusal::NoJob);
    }
    rows.find(word).ok_or(Refusal::NoRow)?;
    if was_started(status_in(word, job as u8)) {
        return Err(Refusal::Started);
    }
    Ok(left(job_of(file, job), now_of(word)))
}

// The leeway of a job in a state, or why there is none.
fn leeway_of(file: &[u8], word: u32, job: u32) -> Result<i32, Refusal>
    ensures { leeway_reply_of result ≡ leeway_reply word job (reading file.now) }
{
    let rows = read_for(file, PAST_ALL)?;
    leeway_in(file, &rows, word, job)
}

// The leeway of a job in a state, of any bytes: the whole file is read first.
pub fn leeway(file: &[u8], word: u32, job: u32) -> LeewayReply
    ensures { result ≡ leeway_reply word job (reading file.now) }
{
    LeewayReply::from(leeway_of(file, word, job))
}
