// How far a job is.
ghost use Rattle.std.specs.Prelude.{◌≡◌, ◌%◌};
ghost use Rattle.state.specs.Statuses.{number_of, Numbers};

#[derive(Clone, Copy, PartialEq, Eq)]
pub enum Status {
    Coming,
    Ready,
    Running,
    Done,
}

// A number that no status has.
#[derive(Clone, Copy, PartialEq, Eq)]
pub struct UnknownStatus;

impl TryFrom<u8> for Status {
    type Error = UnknownStatus;

    ghost try_from_gives = { Numbers };

    fn try_from(number: u8) -> Result<Self, UnknownStatus> {
        match number {
            0 => Ok(Status::Coming),
            1 => Ok(Status::Ready),
            2 => Ok(Status::Running),
            3 => Ok(Status::Done),
            _ => Err(UnknownStatus),
        }
    }
}

impl Status {
    // The number that the rules give it.
    pub fn number(self) -> u8
        ensures { result ≡ number_of self }
    {
        self as u8
    }

    // The status in the lowest two bits of a word.
    pub fn in_low_bits(word: u32) -> Status
        ensures { number_of result ≡ word % 4 }
    {
        match word % 4 {
            0 => Status::Coming,
            1 => Status::Ready,
            2 => Status::Running,
            _ => Status::Done,
        }
    }
}
