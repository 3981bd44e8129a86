// The event that a byte names.
ghost use Rattle.state.specs.EventByte.{IsNamed};

// An event with the number of its job, 1 to 8.
#[derive(Clone, Copy, PartialEq, Eq)]
pub enum Event {
    Tick,
    Arrival(u8),
    Start(u8),
    Ending(u8),
}

// A byte that names no event.
#[derive(Clone, Copy, PartialEq, Eq)]
pub struct UnknownEvent;

// Starts begin after 16 and endings after 32, so that the job is what is left.
impl TryFrom<u8> for Event {
    type Error = UnknownEvent;

    ghost try_from_gives = { IsNamed };

    fn try_from(byte: u8) -> Result<Self, UnknownEvent> {
        match byte {
            0 => Ok(Event::Tick),
            1..=8 => Ok(Event::Arrival(byte)),
            17..=24 => Ok(Event::Start(byte - 16)),
            33..=40 => Ok(Event::Ending(byte - 32)),
            _ => Err(UnknownEvent),
        }
    }
}
