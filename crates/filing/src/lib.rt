// Filing: the table's file written by an order of places, each row read from the work slice at its place.

#![tactic(auto)]

ghost use Rattle.std.specs.Prelude.{◌≡◌, ◌++◌, map, ◌≤◌, ◌<◌, ◌*◌, length, drop};
ghost use Rattle.places.specs.Places.{most_live, work_words};
ghost use Rattle.blocks.specs.Sizes.{block_bytes, block_slots};
ghost use Rattle.blocks.specs.File.{block_of, row_slot, blocks_of, bytes_of};
ghost use Rattle.order.specs.Deal.{PlacesIn};
ghost use Rattle.filing.specs.Filing.{entry_at, entries_at};

use blocks::header::Header;
use blocks::put::put;
use blocks::sizes::{BLOCK, HEADER, SLOT, SLOTS};
use places::key_at;
use places::note::note_at;
use state::jobs::JobSheet;
use writer::{blocks_of, row_slot, seal, write_jobs};

// The slot of the row at a place.
fn slot_at(work: &[u32], place: u16) -> [u8; SLOT]
    requires { (place < most_live) × (work_words ≤ length work.now) }
    ensures { result ≡ row_slot (entry_at work.now place) }
{
    let p = usize::from(place);
    row_slot(key_at(work, p).word, note_at(work, p))
}

// Writes a block of a file, with the rows at these places: the header, a slot a row, zeros and the check.
fn write_rows(part: &mut [u8], header: Header, work: &[u32], places: &[u16])
    requires part_len { length part.old ≡ block_bytes }
    requires places_in { PlacesIn work.now places.now × (length places.now ≤ block_slots) }
    requires used { header.used ≡ length places.now }
    ensures { part.new ≡ block_of header.jobs header.number header.total (map row_slot (entries_at work.now places.now)) }
{
    put(part, 0, &header.to_bytes());
    for (s, place) in places.iter().enumerate() {
        put(part, HEADER + SLOT * s, &slot_at(work, *place));
    }
    seal(part, HEADER + SLOT * places.len());
}

// Writes the whole file of a sheet and the rows at places in their order: block 0, then block after block of rows. What stands behind the file
// is left.
pub fn write_file(out: &mut [u8], sheet: &JobSheet, work: &[u32], places: &[u16])
    requires places_in { PlacesIn work.now places.now }
    requires room { block_bytes * blocks_of (length places.now) ≤ length out.old }
    ensures { out.new ≡ bytes_of sheet.now (entries_at work.now places.now) ++ drop (block_bytes * blocks_of (length places.now)) out.old }
{
    let total = blocks_of(places.len());
    let n = sheet.count() as u8;
    write_jobs(&mut out[..BLOCK], total as u16, sheet);
    for b in 1..total {
        let at = BLOCK * b;
        let from = SLOTS * (b - 1);
        let end = places.len().min(from + SLOTS);
        let header = Header {
            jobs: n,
            used: (end - from) as u8,
            number: b as u16,
            total: total as u16,
        };
        write_rows(&mut out[at..at + BLOCK], header, work, &places[from..end]);
    }
}
