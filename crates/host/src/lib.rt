// The C interface: each call of the library under the name that include/smirrado.h gives it. Nothing is worked out here.

#![tactic(auto)]

ghost use Rattle.std.specs.Prelude.{◌≡◌};
ghost use Rattle.engine.specs.Verdict.{Verdict};
ghost use Rattle.maker.specs.Making.{Made};
ghost use Rattle.table.specs.Read.{reading};
ghost use Rattle.table.specs.Replies.{row_reply, listing_reply, leeway_reply};
ghost use Rattle.quick.specs.Quick.{Quick};
ghost use Rattle.desk.specs.Stepping.{step_reply};

use desk::desk::Desk;
use desk::step::StepReply;

#[unsafe(no_mangle)]
pub extern "C" fn smirrado_make(sheet: &[u16], work: &mut [u32], out: &mut [u8]) -> maker::MakeReply
    ensures { Made sheet.now work.old work.new out.old out.new result }
{
    maker::make(sheet, work, out)
}

#[unsafe(no_mangle)]
pub extern "C" fn smirrado_row(file: &[u8], word: u32) -> table::row::RowReply
    ensures { result ≡ row_reply word (reading file.now) }
{
    table::row::row(file, word)
}

#[unsafe(no_mangle)]
pub extern "C" fn smirrado_row_quick(file: &[u8], word: u32) -> table::row::RowReply
    ensures { Quick file.now word result }
{
    quick::row_quick(file, word)
}

#[unsafe(no_mangle)]
pub extern "C" fn smirrado_listing(file: &[u8], row_number: u32) -> table::listing::ListingReply
    ensures { result ≡ listing_reply row_number (reading file.now) }
{
    table::listing::listing(file, row_number)
}

#[unsafe(no_mangle)]
pub extern "C" fn smirrado_leeway(file: &[u8], word: u32, job: u32) -> table::leeway::LeewayReply
    ensures { result ≡ leeway_reply word job (reading file.now) }
{
    table::leeway::leeway(file, word, job)
}

// The thin step over the caller's desk: the record is copied out, and the one answered is put back whole.
#[unsafe(no_mangle)]
pub extern "C" fn smirrado_step(file: &[u8], desk: &mut Desk, event: u8) -> StepReply
    ensures { (result ≡ (step_reply desk.old event (reading file.now)).reply)
        × (desk.new ≡ (step_reply desk.old event (reading file.now)).desk) }
{
    let s = desk::step::step(file, *desk, event);
    *desk = s.desk;
    s.reply
}

#[unsafe(no_mangle)]
pub extern "C" fn smirrado_engine(sheet: &[u16]) -> engine::EngineReply
    ensures { Verdict sheet.now result }
{
    engine::engine(sheet)
}
