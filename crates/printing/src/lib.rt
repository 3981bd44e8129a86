// What the printing program prints for the bytes that it reads: text read, table made, lines put into a lent slice.
// specs/Prints.antt says what is printed. The program above it only reads and writes.

#![tactic(auto)]

ghost use Rattle.std.specs.Prelude.{◌≤◌, length};
ghost use Rattle.maker.specs.Making.{SheetLength};
ghost use Rattle.lines.specs.Pages.{HasRoom};
ghost use Rattle.printing.specs.Prints.{most_printed, SheetPrintsOn, PrintsOn, TextPrinted};

pub mod listing;

use crate::listing::put_listing;
use lines::page::Page;
use maker::make_file;
use state::refusal::Refusal;
use text::read::parse;

// The most bytes that a text of good form has, and one more, so that a longer text is seen to be longer.
pub const MOST_READ: usize = 129;

// The most bytes that are printed: a header, and a line for each row of the longest table.
pub const MOST_PRINTED: usize = 244125;

// The bytes of the longest file.
const FILE: usize = 65536;

// Prints the table of a sheet's numbers, or why there is none. The buffers are as long as make can ask for.
fn put_sheet(page: &mut Page<'_>, numbers: &[u16])
    requires { SheetLength numbers.now × HasRoom page.old most_printed }
    ensures { SheetPrintsOn numbers.now page.old page.new }
{
    let mut work = [0u32; places::WORK];
    let mut file = [0u8; FILE];
    match make_file(numbers, &mut work, &mut file) {
        Ok(length) => put_listing(page, &file[..length as usize]),
        Err(refusal) => page.put_refusal(refusal.number(), refusal.detail()),
    }
}

// Prints what the program prints for a text, of any bytes.
fn put_text(page: &mut Page<'_>, text: &[u8])
    requires { HasRoom page.old most_printed }
    ensures { PrintsOn text.now page.old page.new }
{
    match parse(text) {
        Some(numbers) => put_sheet(page, numbers.as_slice()),
        None => page.put_refusal(Refusal::NoSheet.number(), Refusal::NoSheet.detail()),
    }
}

// Prints it at the front of a slice, and answers how many bytes it is.
pub fn print(out: &mut [u8], text: &[u8]) -> usize
    requires { most_printed ≤ length out.old }
    ensures { TextPrinted text.now out.old result out.new }
{
    let mut page = Page::new(out);
    put_text(&mut page, text);
    page.end()
}
