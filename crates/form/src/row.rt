// The form of one row: its word in order, its marks fitting.
ghost use Rattle.std.specs.Prelude.{◌≡◌, true, length, ◌-◌, ◌≤◌, ◌/◌, ◌%◌, ◌^◌, eqb};
ghost use Rattle.plant.specs.Reflect.{Is};
ghost use Rattle.sheet.specs.Model.{state_of};
ghost use Rattle.sheet.specs.Form.{GoodEntry};
ghost use Rattle.state.specs.Statuses.{number_of};
ghost use Rattle.blocks.specs.Rows.{entry_of};
ghost use Rattle.form.specs.RowTest.{JobFits, Pends, Spends, Tells, Ends, MarksFit};

use blocks::row::Row;
use sheet::Job;
use state::bits::{has, status_in};
use state::jobs::JobSheet;
use state::status::Status;
use state::word::Elapsed;

// What a pass tells of jobs that all fit, of which at most one runs: whether one runs, whether an arrival is pending, and whether
// one has run for its most ticks.
#[derive(Clone, Copy)]
pub struct Passed {
    pub running: bool,
    pub pending: bool,
    pub spent: bool,
}

// The tick now of a state word.
pub fn now_of(word: u32) -> u8
    ensures { result ≡ word / 2 ^ 24 }
{
    (word >> 24) as u8
}

// The elapsed ticks of a state word.
fn elapsed_of(word: u32) -> Elapsed
    ensures { result.0 ≡ word / 2 ^ 16 % 256 }
{
    Elapsed((word >> 16 & 255) as u8)
}

// Whether one job of this status fits: each status asks its own rule, and only a ready job may be marked. In sums that do not wrap.
fn job_fits(job: Job, status: Status, marked: bool, now: u8, elapsed: Elapsed, opens: bool) -> bool
    ensures { Is result (JobFits job now elapsed.0 (number_of status) (marked ≡ true) (opens ≡ true)) }
{
    let arrives = u32::from(job.arrives);
    let last = arrives + u32::from(job.due);
    let ran = u32::from(elapsed.0);
    let now = u32::from(now);
    let soon = now + u32::from(opens);
    match status {
        Status::Ready => arrives <= now && soon <= last,
        _ if marked => false,
        Status::Coming => now <= arrives,
        Status::Running => soon <= last && ran <= u32::from(job.most) && arrives + ran <= now,
        Status::Done => arrives + u32::from(job.fewest) <= now,
    }
}

// Whether a job of this status runs.
fn runs(status: Status) -> bool
    ensures { Is result (number_of status ≡ 2) }
{
    status == Status::Running
}

// Whether this job's arrival is pending.
fn pends(job: Job, status: Status, now: u8) -> bool
    ensures { Is result (Pends job now (number_of status)) }
{
    status == Status::Coming && u16::from(now) == job.arrives
}

// Whether this job has run for its most ticks.
fn spends(job: Job, status: Status, elapsed: Elapsed) -> bool
    ensures { Is result (Spends job elapsed.0 (number_of status)) }
{
    runs(status) && u16::from(elapsed.0) == job.most
}

// One pass over the jobs, or none where one does not fit or two run. What is told of the jobs passed grows by one job at each turn.
fn pass(sheet: &JobSheet, row: Row) -> Option<Passed>
    ensures { Tells sheet.now (state_of row.word) row.starts row.tick (length sheet.now) result }
{
    let now = now_of(row.word);
    let elapsed = elapsed_of(row.word);
    let opens = row.tick == 1;
    let mut passed = Passed {
        running: false,
        pending: false,
        spent: false,
    };
    for (k, numbers) in sheet.jobs().iter().enumerate() {
        let number = k as u8 + 1;
        let job = Job::from(*numbers);
        let status = status_in(row.word, number);
        let marked = has(row.starts, number);
        if !job_fits(job, status, marked, now, elapsed, opens) {
            return None;
        }
        let runs = runs(status);
        if passed.running & runs {
            return None;
        }
        passed = Passed {
            running: passed.running | runs,
            pending: passed.pending | pends(job, status, now),
            spent: passed.spent | spends(job, status, elapsed),
        };
    }
    Some(passed)
}

// Whether no status and no start stands past the last of n jobs: what is left of them above n is 0.
fn ends(row: Row, n: usize) -> bool
    requires { n ≤ 8 }
    ensures { Is result (Ends n (state_of row.word) row.starts) }
{
    (row.word & 65535) >> (2 * n) == 0 && u16::from(row.starts) >> n == 0
}

// Whether the statuses are those of the finished state: the lowest n are 3, and the rest 0.
fn all_done(word: u32, n: usize) -> bool
    requires { n ≤ 8 }
    ensures { result ≡ eqb (word % 2 ^ 16) (4 ^ n - 1) }
{
    word & 65535 == (1u32 << (2 * n)) - 1
}

// Whether a row of the finished state has its one form: now and elapsed 0, no start, an open tick.
fn finished_good(row: Row) -> bool
    ensures { Is result ((row.word ≤ 65535) × ((row.starts ≡ 0) × (row.tick ≡ 1))) }
{
    row.word <= 65535 && row.starts == 0 && row.tick == 1
}

// Whether the marks fit: no start while a job runs or an arrival is pending; the tick code 0 exactly where the tick is not possible,
// otherwise 1, or 2 with some start.
fn marks_fit(passed: Passed, starts: u8, code: u8) -> bool
    ensures { Is result (MarksFit (passed.running ≡ true) (passed.pending ≡ true) (passed.spent ≡ true) starts code) }
{
    if (passed.running || passed.pending) && starts != 0 {
        return false;
    }
    if passed.pending || passed.spent {
        return code == 0;
    }
    code == 1 || code == 2 && starts != 0
}

// Whether a row is of good form. The finished state has one form only; any other is told by one pass over the jobs.
pub fn row_good(sheet: &JobSheet, row: Row) -> bool
    ensures { Is result (GoodEntry sheet.now (entry_of row)) }
{
    let n = sheet.count();
    if !ends(row, n) {
        return false;
    }
    if all_done(row.word, n) {
        return finished_good(row);
    }
    let Some(passed) = pass(sheet, row) else {
        return false;
    };
    let elapsed_fits = passed.running | (elapsed_of(row.word).0 == 0);
    elapsed_fits && marks_fit(passed, row.starts, row.tick)
}
