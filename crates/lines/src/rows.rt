// The line of a row: the state that its word says, the jobs that may be started and what the clock may do.
ghost use Rattle.std.specs.Prelude.{map, ◌+◌, ◌≤◌, length, take};
ghost use Rattle.plant.specs.Range.{In};
ghost use Rattle.sheet.specs.Model.{state_of};
ghost use Rattle.blocks.specs.Sizes.{most_jobs};
ghost use Rattle.blocks.specs.Rows.{entry_of};
ghost use Rattle.lines.specs.Digits.{digit};
ghost use Rattle.lines.specs.Lines.{line_bytes, row_line, job_text, jobs_text, or_dash, tick_word};
ghost use Rattle.lines.specs.Parts.{clock_part, state_part, marks_part, clock_bytes, state_bytes, marks_bytes};
ghost use Rattle.lines.specs.Pages.{HasRoom, Adds};

use crate::page::Page;
use blocks::row::Row;
use state::bits::has;
use state::word::State;

// `n ≤ most_jobs` stays a clause: n is the file's byte of jobs, and a type of its own would be made by a proof for one call.
impl Page<'_> {
    // Prints the statuses of the first n jobs, a digit each.
    fn put_statuses(&mut self, state: State, n: u8)
        requires { (n ≤ most_jobs) × HasRoom self.old n }
        ensures { Adds self.old (map digit (take n state.statuses)) self.new }
    {
        for status in &state.statuses[..usize::from(n)] {
            self.put_digit(*status);
        }
    }

    // Prints job k, if the byte of starts has it.
    fn put_job(&mut self, starts: u8, k: u8)
        requires { In most_jobs k × HasRoom self.old 1 }
        ensures { Adds self.old (job_text starts k) self.new }
    {
        if has(starts, k) {
            self.put_digit(k);
        }
    }

    // Prints the jobs of 1 to n that the byte of starts has, in this order.
    fn put_jobs(&mut self, starts: u8, n: u8)
        requires { (n ≤ most_jobs) × HasRoom self.old n }
        ensures { Adds self.old (jobs_text n starts) self.new }
    {
        for k in 1..=n {
            self.put_job(starts, k);
        }
    }

    // Prints the allowed jobs of 1 to n, or `-` where there is none.
    fn put_starts(&mut self, starts: u8, n: u8)
        requires { (n ≤ most_jobs) × HasRoom self.old most_jobs }
        ensures { Adds self.old (or_dash (jobs_text n starts)) self.new }
    {
        let before = self.end();
        self.put_jobs(starts, n);
        if self.end() == before {
            self.put(b"-");
        }
    }

    // Prints what a tick code says. A byte and no enum: any byte can stand in a row that is printed.
    fn put_tick(&mut self, tick: u8)
        requires { HasRoom self.old (length (tick_word tick)) }
        ensures { Adds self.old (tick_word tick) self.new }
    {
        match tick {
            0 => self.put(b"none"),
            1 => self.put(b"open"),
            _ => self.put(b"held"),
        }
    }

    // Prints the ticks of a clock and a space behind them.
    fn put_clock(&mut self, ticks: u8)
        requires { HasRoom self.old clock_bytes }
        ensures prints { Adds self.old (clock_part ticks) self.new }
        ensures few { self.new.end ≤ self.old.end + clock_bytes }
    {
        self.put_number(u32::from(ticks));
        self.put(b" ");
    }

    // Prints now, elapsed and the statuses of a row's state, each with a space behind it.
    fn put_state(&mut self, n: u8, word: u32)
        requires { (n ≤ most_jobs) × HasRoom self.old state_bytes }
        ensures { Adds self.old (state_part n (state_of word)) self.new }
    {
        let state = State::from(word);
        self.put_clock(state.now);
        self.put_clock(state.elapsed.0);
        self.put_statuses(state, n);
        self.put(b" ");
    }

    // Prints a row's marks and ends its line.
    fn put_marks(&mut self, n: u8, starts: u8, tick: u8)
        requires { (n ≤ most_jobs) × HasRoom self.old marks_bytes }
        ensures { Adds self.old (marks_part n starts tick) self.new }
    {
        self.put_starts(starts, n);
        self.put(b" ");
        self.put_tick(tick);
        self.put(b"\n");
    }

    // Prints a row of a table of n jobs: the state that its word says, and its marks.
    pub fn put_row(&mut self, n: u8, row: Row)
        requires { (n ≤ most_jobs) × HasRoom self.old line_bytes }
        ensures { Adds self.old (row_line n (entry_of row)) self.new }
    {
        self.put_state(n, row.word);
        self.put_marks(n, row.starts, row.tick);
    }
}
