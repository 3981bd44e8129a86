// Why a call refuses.
ghost use Rattle.std.specs.Prelude.{◌≡◌};
ghost use Rattle.state.specs.Refusals.{refusal_number, refusal_detail};

#[derive(Clone, Copy, PartialEq, Eq)]
pub enum Refusal {
    // The numbers lent are no sheet.
    NoSheet,
    // A job is of bad form: the lowest, counted from 1.
    BadJob(u32),
    // The work slice is too short.
    ShortWork,
    // There are more live states than there is room for.
    TooManyStates,
    // No rule keeps the sheet's jobs in time.
    Impossible,
    // The output is shorter than the file, which takes so many bytes.
    ShortOutput(u32),
    // The file is of bad form: the first block that is.
    BadBlock(u32),
    // No row has the word, or the number.
    NoRow,
    // No job has the number, or no event the byte.
    NoJob,
    // The event is not possible.
    NotPossible,
    // The row does not allow the event.
    NotAllowed,
    // The job was started.
    Started,
}

impl Refusal {
    // The number by which a caller in C tells it.
    pub fn number(self) -> u32
        ensures { result ≡ refusal_number self }
    {
        match self {
            Refusal::NoSheet => 1,
            Refusal::BadJob(_) => 2,
            Refusal::ShortWork => 3,
            Refusal::TooManyStates => 4,
            Refusal::Impossible => 5,
            Refusal::ShortOutput(_) => 6,
            Refusal::BadBlock(_) => 7,
            Refusal::NoRow => 8,
            Refusal::NoJob => 9,
            Refusal::NotPossible => 10,
            Refusal::NotAllowed => 11,
            Refusal::Started => 12,
        }
    }

    // Which job, block or how many bytes, and else 0.
    pub fn detail(self) -> u32
        ensures { result ≡ refusal_detail self }
    {
        match self {
            Refusal::BadJob(i) => i,
            Refusal::ShortOutput(bytes) => bytes,
            Refusal::BadBlock(b) => b,
            _ => 0,
        }
    }
}
