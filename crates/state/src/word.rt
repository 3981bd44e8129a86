// A state by value, and its word.
ghost use Rattle.state.specs.Statuses.{Known};

use crate::status::Status;

// Ticks since the running job's start. A start and an ending set this clock back.
#[derive(Clone, Copy, PartialEq, Eq)]
pub struct Elapsed(pub u8);

// Ticks since a job's arrival. Only its arrival sets this clock back.
#[derive(Clone, Copy, PartialEq, Eq)]
pub struct Age(pub u8);

// The tick now, the elapsed ticks of the running job (0 where none runs) and the eight statuses (0 past the last job), none above 3.
#[derive(Clone, Copy, PartialEq, Eq)]
pub struct State {
    pub now: u8,
    pub elapsed: Elapsed,
    pub statuses: [u8; 8],
    ghost known: { Known statuses },
}

impl State {
    ghost use Rattle.std.specs.Prelude.{◌≡◌, ◌<◌, get_or};
    ghost use Rattle.sheet.specs.Model.{word};
    ghost use Rattle.state.specs.Statuses.{number_of};
    ghost use Rattle.state.specs.Clocks.{model};

    // How far the job at a place is, counted from 0: the enum that code compares with.
    pub fn status(self, i: usize) -> Status
        requires { i < 8 }
        ensures { number_of result ≡ get_or self.statuses i 0 }
    {
        Status::in_low_bits(u32::from(self.statuses[i]))
    }

    // The word of the state: two bits a job, the first job lowest, then a byte of elapsed ticks and a byte of now.
    pub fn word(self) -> u32
        ensures { result ≡ word (model self) }
    {
        let mut word: u32 = 0;
        for (i, status) in self.statuses.iter().enumerate() {
            word += u32::from(*status) << (2 * i);
        }
        (u32::from(self.now) << 24) | (u32::from(self.elapsed.0) << 16) | word
    }
}

// The state of a word: the statuses are its lowest 16 bits, two at a time.
impl From<u32> for State {
    ghost use Rattle.state.specs.Clocks.{IsStateOf};

    ghost from_gives = { IsStateOf };

    fn from(word: u32) -> State {
        let mut statuses = [0; 8];
        let mut rest = word;
        for status in statuses.iter_mut() {
            *status = (rest & 3) as u8;
            rest >>= 2;
        }
        State {
            now: (word >> 24) as u8,
            elapsed: Elapsed((word >> 16 & 255) as u8),
            statuses,
        }
    }
}
