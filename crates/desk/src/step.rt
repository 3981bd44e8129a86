// Step: 7, 9, 8, 10, 11 in this order, or the event taken and the desk after it.
ghost use Rattle.std.specs.Prelude.{◌≡◌, List};
ghost use Rattle.sheet.specs.Form.{GoodRows};
ghost use Rattle.sheet.specs.Model.{Sheet, Good};
ghost use Rattle.sheet.specs.Table.{Entry};
ghost use Rattle.table.specs.Places.{GoodFile};
ghost use Rattle.table.specs.Reading.{good, Says};
ghost use Rattle.table.specs.Read.{reading};
ghost use Rattle.desk.specs.Stepping.{step_reply, step_reply_of};
ghost use Rattle.desk.specs.Stages.{Named, Standing, MovesOn, Moved};

use crate::desk::Desk;
use crate::moves::{allowed, may, names};
use after::after;
use blocks::row::Row;
use state::event::Event;
use state::jobs::JobSheet;
use state::refusal::Refusal;
use state::word::State;
use table::judge::{PAST_ALL, read_for, sheet_of};
use table::place::Rows;

// A step's answer to C: number and detail. Its only result is the desk.
#[repr(C)]
#[derive(Clone, Copy)]
pub struct StepReply {
    pub number: u32,
    pub detail: u32,
}

// The answer, and the desk after it.
#[derive(Clone, Copy)]
pub struct Stepped {
    pub reply: StepReply,
    pub desk: Desk,
}

// The event of a byte, of a job of the sheet.
fn named(sheet: &JobSheet, byte: u8) -> Result<Event, Refusal>
    ensures { Named sheet.now byte result }
{
    let event = Event::try_from(byte).map_err(|_| Refusal::NoJob)?;
    if !names(sheet, event) {
        return Err(Refusal::NoJob);
    }
    Ok(event)
}

// The state on the desk, with its row.
fn standing(rows: &Rows<'_>, desk: Desk) -> Result<(State, Row), Refusal>
    ensures { Standing rows.now desk result }
{
    let s = State::try_from(desk).map_err(|_| Refusal::NoRow)?;
    let i = rows.find(s.word()).ok_or(Refusal::NoRow)?;
    Ok((s, rows.row(i)))
}

// The state that the event leads to, where it is possible and its row allows it.
fn moved(sheet: &JobSheet, s: State, row: Row, event: Event) -> Result<State, Refusal>
    requires { MovesOn sheet.now s row event }
    ensures { Moved sheet.now s row event result }
{
    if !may(sheet, s, event) {
        return Err(Refusal::NotPossible);
    }
    if !allowed(row, event) {
        return Err(Refusal::NotAllowed);
    }
    Ok(after(sheet, s, event))
}

// The step in a file that says these jobs and rows.
fn step_in(sheet: &JobSheet, rows: &Rows<'_>, desk: Desk, byte: u8) -> Result<Desk, Refusal>
    requires { Good sheet.now × GoodRows sheet.now rows.now }
    ensures { step_reply_of desk result ≡ step_reply desk byte (good sheet.now rows.now) }
{
    let event = named(sheet, byte)?;
    let (s, row) = standing(rows, desk)?;
    let next = moved(sheet, s, row, event)?;
    Ok(Desk::from(next))
}

// The desk after the event, of any bytes: the whole file is read first.
fn step_of(file: &[u8], desk: Desk, byte: u8) -> Result<Desk, Refusal>
    ensures { step_reply_of desk result ≡ step_reply desk byte (reading file.now) }
{
    let rows = read_for(file, PAST_ALL)?;
    step_in(&sheet_of(file), &rows, desk, byte)
}

// The step by value, of any bytes. A refused one leaves the desk as it stood.
pub fn step(file: &[u8], desk: Desk, event: u8) -> Stepped
    ensures { result ≡ step_reply desk event (reading file.now) }
{
    match step_of(file, desk, event) {
        Ok(next) => Stepped {
            reply: StepReply {
                number: 0,
                detail: 0,
            },
            desk: next,
        },
        Err(refusal) => Stepped {
            reply: StepReply {
                number: refusal.number(),
                detail: refusal.detail(),
            },
            desk,
        },
    }
}
