// A job's bit in a byte of starts, and a job's two bits in a state word, by shifts and masks. Jobs are counted from 1.
// A job's number stays a byte: it comes as one, and is counted by `for`s, where a type of its own would be made by a proof at each turn.
ghost use Rattle.std.specs.Prelude.{◌≡◌};
ghost use Rattle.plant.specs.Range.{In};
ghost use Rattle.plant.specs.Marks.{Has};
ghost use Rattle.plant.specs.Reflect.{Is};
ghost use Rattle.sheet.specs.Model.{status, state_of};
ghost use Rattle.state.specs.Bits.{with_start};
ghost use Rattle.state.specs.Statuses.{number_of};

use crate::status::Status;

// Whether the byte of starts has job k: bit k − 1 stands for it.
pub fn has(starts: u8, k: u8) -> bool
    requires { In 8 k }
    ensures { Is result (Has starts k) }
{
    starts & (1 << (k - 1)) != 0
}

// The byte of starts with job k in it too, and the other jobs as before.
pub fn with(starts: u8, k: u8) -> u8
    requires { In 8 k }
    ensures { result ≡ with_start starts k }
{
    starts | (1 << (k - 1))
}

// The status of job k in a state word: bits 2k − 2 and 2k − 1.
pub fn status_in(word: u32, k: u8) -> Status
    requires { In 8 k }
    ensures { number_of result ≡ status (state_of word) k }
{
    Status::in_low_bits(word >> (2 * (k - 1)))
}
