// The rows of a file in their places: how many there are, and where a word stands.
ghost use Rattle.std.specs.Prelude.{◌≡◌, List, ℕ, ◌≤◌, ◌<◌, ◌+◌, ◌-◌, ◌*◌, length, get_or};
ghost use Rattle.sheet.specs.Model.{Sheet};
ghost use Rattle.sheet.specs.Table.{Entry, at};
ghost use Rattle.blocks.specs.Sizes.{block_slots, slot_bytes, most_rows};
ghost use Rattle.blocks.specs.Bytes.{u32_at};
ghost use Rattle.blocks.specs.Rows.{entry_of};
ghost use Rattle.table.specs.Reading.{total, block_at, Sized, Reads, GoodTo, good, Says};
ghost use Rattle.table.specs.ReadFor.{last_word};
ghost use Rattle.table.specs.Places.{place, GoodFile, Finds};

use blocks::numbers::read32;
use blocks::row::Row;
use blocks::sizes::{BLOCK, HEADER, SLOT, SLOTS};
use std::marker::Model;

// The rows of a file's first blocks. Seen from outside they are the rules' rows.
#[derive(Clone, Drop)]
pub struct Rows<'a> {
    file: &'a [u8],
    count: usize,
}

impl<'a> Model for Rows<'a> {
    ghost use Rattle.std.specs.Prelude.{List};
    ghost use Rattle.sheet.specs.Table.{Entry};
    ghost use Rattle.table.specs.Places.{rows_in, Placed};

    ghost Value = { List Entry };

    ghost view = { λ r. rows_in r.file.now r.count };

    ghost invariant = { λ r. Placed r.file.now r.count };
}

// Where row i stands, counted from 0.
pub fn place_of(i: usize) -> usize
    requires { i < most_rows }
    ensures { result ≡ place i }
{
    BLOCK * (i / SLOTS + 1) + (HEADER + SLOT * (i % SLOTS))
}

// The word of row i.
pub fn word_at(file: &[u8], i: usize) -> u32
    requires { (i < most_rows) × (place i + slot_bytes ≤ length file.now) }
    ensures { result ≡ u32_at file.now (place i) }
{
    read32(file, place_of(i))
}

// The number of rows in the blocks up to b: all slots of those before it, and the slots used in it.
pub fn rows_to(file: &[u8], b: usize) -> usize
    requires { Sized file.now × ((1 ≤ b) × (b < total file.now)) }
    ensures { result ≡ block_slots * (b - 1) + get_or (block_at file.now b) 3 0 }
{
    SLOTS * (b - 1) + usize::from(file[BLOCK * b + 3])
}

// The number of rows of a file.
pub fn count_rows(file: &[u8]) -> usize
    requires { Sized file.now }
    ensures { result ≡ block_slots * (total file.now - 2) + get_or (block_at file.now (total file.now - 1)) 3 0 }
{
    rows_to(file, file.len() / BLOCK - 1)
}

impl<'a> Rows<'a> {
    // The rows of the blocks up to block b, where all those are good.
    pub fn read(file: &'a [u8], b: usize) -> Rows<'a>
        requires { Sized file.now × ((1 ≤ b) × GoodTo file.now b) }
        ensures { (σ : Sheet) (rows : List Entry) → Reads file.now b σ rows → result ≡ rows }
    {
        Rows {
            file,
            count: rows_to(file, b),
        }
    }

    // All rows of a good file.
    pub fn of(file: &'a [u8]) -> Rows<'a>
        requires { GoodFile file.now }
        ensures { (σ : Sheet) (rows : List Entry) → Says file.now (good σ rows) → result ≡ rows }
    {
        Rows {
            file,
            count: count_rows(file),
        }
    }

    // How many they are.
    pub fn count(&self) -> usize
        ensures same { result ≡ length self.now }
        ensures few { result ≤ most_rows }
    {
        self.count
    }

    // Row i, counted from 0.
    pub fn row(&self, i: usize) -> Row
        requires { i < length self.now }
        ensures { entry_of result ≡ at self.now i }
    {
        Row::read(self.file, place_of(i))
    }

    // The word of the last row.
    pub fn last_word(&self) -> u32
        requires { 1 ≤ length self.now }
        ensures { result ≡ last_word self.now }
    {
        self.row(self.count() - 1).word
    }

    // The first row whose word is not below the asked one, or their number: all before `lo` are below it, all from `hi` on are not.
    // By hand: the words stand in blocks of the lent file, and no slice of them can be searched. Where a field is read, here and in find, the
    // order of the rows is known; a call of count does not tell it.
    fn lower(&self, word: u32) -> usize
        ensures inside { result ≤ length self.now }
        ensures below { (i : ℕ) → i < result → (at self.now i).word < word }
        ensures above { (i : ℕ) → result ≤ i → i < length self.now → word ≤ (at self.now i).word }
    {
        let mut lo: usize = 0;
        let mut hi = self.count;
        while lo < hi {
            let mid = lo + (hi - lo) / 2;
            if word_at(self.file, mid) < word {
                lo = mid + 1;
            } else {
                hi = mid;
            }
        }
        lo
    }

    // The row that has a word, counted from 0: if any has, it is the first that is not below.
    pub fn find(&self, word: u32) -> Option<usize>
        ensures { Finds self.now word result }
    {
        let i = self.lower(word);
        if i < self.count && self.row(i).word == word {
            Some(i)
        } else {
            None
        }
    }
}
