// A sheet by value: up to eight jobs, as a call is lent them.
ghost use Rattle.std.specs.Prelude.{◌≡◌, ◌≤◌, ◌+◌, ◌<◌, get_or, length, map, MatchOption};
ghost use Rattle.sheet.specs.Arrays.{job_of, four, arrays, sheet_of};
ghost use Rattle.state.specs.Lent.{JobsIn, Lent};
ghost use Rattle.state.specs.Lowest.{lowest_bad};

use crate::refusal::Refusal;
use sheet::Job;
use std::marker::Model;

// How many jobs a sheet has at most.
pub const JOBS: usize = 8;

// Eight jobs of four numbers, of which the first are there. Seen from outside it is the rules' sheet, the list of its jobs; what stands past
// the last is not seen.
#[derive(Drop)]
pub struct JobSheet {
    jobs: [[u16; 4]; JOBS],
    count: usize,
}

impl Model for JobSheet {
    ghost use Rattle.std.specs.Prelude.{◌≤◌};
    ghost use Rattle.sheet.specs.Model.{Sheet};
    ghost use Rattle.sheet.specs.Arrays.{sheet_of};

    ghost Value = { Sheet };

    ghost view = { λ s. sheet_of s.jobs s.count };

    ghost invariant = { λ s. s.count ≤ 8 };
}

impl JobSheet {
    // The first jobs of an array.
    pub fn from_jobs(jobs: [[u16; 4]; JOBS], count: usize) -> JobSheet
        requires { count ≤ 8 }
        ensures { result ≡ sheet_of jobs count }
    {
        JobSheet { jobs, count }
    }

    // The sheet of the numbers lent, job after job, where they are one of at most so many jobs, all of good form.
    pub fn lent(numbers: &[u16], most: usize) -> Result<JobSheet, Refusal>
        requires { most ≤ 8 }
        ensures { Lent most numbers.now result }
    {
        let count = jobs_in(numbers.len(), most);
        if count == 0 {
            return Err(Refusal::NoSheet);
        }
        let sheet = JobSheet::from_jobs(jobs_of(numbers), count);
        match sheet.lowest_bad() {
            Some(i) => Err(Refusal::BadJob(i as u32)),
            None => Ok(sheet),
        }
    }

    // The jobs' numbers, those of the first job first.
    pub fn jobs(&self) -> &[[u16; 4]]
        ensures same { map job_of result.now ≡ self.now }
        ensures many { length result.now ≡ length self.now }
        ensures few { length self.now ≤ 8 }
    {
        &self.jobs[..self.count]
    }

    // How many they are.
    pub fn count(&self) -> usize
        ensures same { result ≡ length self.now }
        ensures few { result ≤ 8 }
    {
        self.jobs().len()
    }

    // The lowest job of bad form, counted from 1: the first that the test refuses, for all before it passed.
    pub fn lowest_bad(&self) -> Option<usize>
        ensures { MatchOption result (lowest_bad self.now ≡ 0) (λ i. (lowest_bad self.now ≡ i) × (1 ≤ i)) }
    {
        for (i, numbers) in self.jobs().iter().enumerate() {
            let job = Job::from(*numbers);
            if !job.is_good() {
                return Some(i + 1);
            }
        }
        None
    }
}

// The jobs of a sheet of so many numbers, or 0 where they are no sheet of at most so many jobs.
pub fn jobs_in(numbers: usize, most: usize) -> usize
    ensures { JobsIn most numbers result }
{
    let count = numbers / 4;
    if numbers % 4 != 0 || count < 1 || most < count {
        return 0;
    }
    count
}

// The number at a place, 0 past the end.
fn number(numbers: &[u16], i: usize) -> u16
    ensures { result ≡ get_or numbers.now i 0 }
{
    numbers.get(i).copied().unwrap_or(0)
}

// The four numbers from a place on.
fn job_from(numbers: &[u16], i: usize) -> [u16; 4]
    requires { i < 32 }
    ensures { result ≡ four numbers.now i }
{
    let arrives = number(numbers, i);
    let fewest = number(numbers, i + 1);
    let most = number(numbers, i + 2);
    let due = number(numbers, i + 3);
    [arrives, fewest, most, due]
}

// Eight jobs, with zeros past the last number.
fn jobs_of(numbers: &[u16]) -> [[u16; 4]; JOBS]
    ensures { result ≡ arrays numbers.now }
{
    let mut jobs = [[0; 4]; JOBS];
    for (i, job) in jobs.iter_mut().enumerate() {
        *job = job_from(numbers, 4 * i);
    }
    jobs
}
