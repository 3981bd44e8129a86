// The desk record, and the state that it stands for.
ghost use Rattle.desk.specs.Desks.{IsDeskOf, IsStateOn};

use state::status::{Status, UnknownStatus};
use state::word::{Elapsed, State};

// A byte each for now, elapsed and the eight statuses. It belongs to the caller, who may be in C.
#[repr(C)]
#[derive(Clone, Copy)]
pub struct Desk {
    pub now: u8,
    pub elapsed: u8,
    pub statuses: [u8; 8],
}

// The desk with a state on it.
impl From<State> for Desk {
    ghost from_gives = { IsDeskOf };

    fn from(s: State) -> Desk {
        let statuses = s.statuses;
        Desk {
            now: s.now,
            elapsed: s.elapsed.0,
            statuses,
        }
    }
}

// The state on the desk. One with a status above 3 stands for none: the first that is above ends the search.
impl TryFrom<Desk> for State {
    type Error = UnknownStatus;

    ghost try_from_gives = { IsStateOn };

    fn try_from(desk: Desk) -> Result<State, UnknownStatus> {
        let statuses = desk.statuses;
        for byte in statuses.iter() {
            let _status = Status::try_from(*byte)?;
        }
        Ok(State {
            now: desk.now,
            elapsed: Elapsed(desk.elapsed),
            statuses,
        })
    }
}
