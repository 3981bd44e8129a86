// The rules of a sheet: the definitions stand in specs/, the theorems there and in proofs/. The only code is a job, of which the rules speak too.

#![tactic(auto)]

ghost use Rattle.plant.specs.Reflect.{Is};
ghost use Rattle.sheet.specs.Model.{GoodJob};
ghost use Rattle.sheet.specs.Arrays.{IsJobOf};

// A job's four numbers.
#[derive(Clone, Copy, PartialEq, Eq)]
pub struct Job {
    pub arrives: u16,
    pub fewest: u16,
    pub most: u16,
    pub due: u16,
}

// The job of four numbers, as a sheet holds them.
impl From<[u16; 4]> for Job {
    ghost from_gives = { IsJobOf };

    fn from(numbers: [u16; 4]) -> Job {
        Job {
            arrives: numbers[0],
            fewest: numbers[1],
            most: numbers[2],
            due: numbers[3],
        }
    }
}

impl Job {
    // Whether the job is of good form, in true sums: the sum of two numbers of 16 bits fits in 32.
    pub fn is_good(self) -> bool
        ensures { Is result (GoodJob self) }
    {
        1 <= self.fewest
            && self.fewest <= self.most
            && self.most <= self.due
            && u32::from(self.arrives) + u32::from(self.due) <= 255
    }
}
