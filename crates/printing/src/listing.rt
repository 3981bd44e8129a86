// The listing of a file of good form: the header, then a line per row in file order.
ghost use Rattle.std.specs.Prelude.{List, ◌≤◌, ◌*◌, length};
ghost use Rattle.sheet.specs.Model.{Sheet};
ghost use Rattle.sheet.specs.Table.{Entry};
ghost use Rattle.blocks.specs.Sizes.{most_jobs, most_rows};
ghost use Rattle.table.specs.Reading.{Says, good};
ghost use Rattle.table.specs.Places.{GoodFile};
ghost use Rattle.lines.specs.Lines.{line_bytes, listing_text};
ghost use Rattle.lines.specs.Pages.{HasRoom, Adds};
ghost use Rattle.printing.specs.Prints.{most_printed};
ghost use Rattle.printing.specs.RowLines.{lines_of};

use lines::page::Page;
use table::place::Rows;

// Prints the rows of a table of n jobs.
fn put_rows(page: &mut Page<'_>, n: u8, rows: &Rows<'_>)
    requires { (n ≤ most_jobs) × HasRoom page.old (line_bytes * length rows.now) }
    ensures { Adds page.old (lines_of n rows.now (length rows.now)) page.new }
{
    for i in 0..rows.count() {
        page.put_row(n, rows.row(i));
    }
}

// Prints the table of a good file: its jobs are counted by the file's own byte.
pub fn put_listing(page: &mut Page<'_>, file: &[u8])
    requires { GoodFile file.now × HasRoom page.old most_printed }
    ensures { (σ : Sheet) (rows : List Entry) → Says file.now (good σ rows) → Adds page.old (listing_text (length σ) rows) page.new }
{
    let n = file[3];
    let rows = Rows::of(file);
    page.put_header(n, rows.count() as u32);
    put_rows(page, n, &rows);
}
