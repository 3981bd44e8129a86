// A page, what is put on it in bytes and numbers, and the lines of two numbers.
ghost use Rattle.std.specs.Prelude.{◌≡◌, [], ◌∷◌, ◌+◌, ◌≤◌, length};
ghost use Rattle.lines.specs.Digits.{digit, decimal};
ghost use Rattle.lines.specs.Lines.{line_bytes, header_line, refusal_text};
ghost use Rattle.lines.specs.Parts.{pair_line};

use crate::bytes::ZERO;

// A lent slice that is filled from the front on, up to `end`.
#[derive(Drop)]
pub struct Page<'a> {
    bytes: &'a mut [u8],
    end: usize,
}

impl<'a> Page<'a> {
    // A page with nothing printed on it.
    pub fn new(bytes: &'a mut [u8]) -> Page<'a>
        ensures same_slice { result.bytes.ghost_name ≡ bytes.entry.ghost_name }
        ensures as_lent { result.bytes.now ≡ bytes.old }
        ensures empty { result.end ≡ 0 }
    {
        Page { bytes, end: 0 }
    }
}

impl Page<'_> {
    ghost use Rattle.lines.specs.Pages.{HasRoom, Adds};

    // How many bytes are printed.
    pub fn end(&self) -> usize
        ensures { result ≡ self.now.end }
    {
        self.end
    }

    // Puts bytes.
    pub(crate) fn put(&mut self, bytes: &[u8])
        requires { HasRoom self.old (length bytes.now) }
        ensures { Adds self.old bytes.now self.new }
    {
        let next = self.end + bytes.len();
        self.bytes[self.end..next].copy_from_slice(bytes);
        self.end = next;
    }

    // Puts the digit of a number below ten.
    pub(crate) fn put_digit(&mut self, d: u8)
        requires { (d ≤ 9) × HasRoom self.old 1 }
        ensures { Adds self.old (digit d ∷ []) self.new }
    {
        self.put(&[ZERO + d]);
    }

    // Puts a number in decimal: the digits of its tenth, where that is not 0, and its last digit behind them. By hand: what is printed is
    // promised byte by byte, and the contracts of `fmt` promise nothing of it.
    pub(crate) fn put_number(&mut self, n: u32)
        requires { HasRoom self.old (length (decimal n)) }
        ensures { Adds self.old (decimal n) self.new }
    {
        if n >= 10 {
            self.put_number(n / 10);
        }
        self.put_digit((n % 10) as u8);
    }

    // Prints a line with two numbers, each behind its words.
    fn put_pair(&mut self, first: &[u8], a: u32, second: &[u8], b: u32)
        requires { HasRoom self.old (length (pair_line first.now a second.now b)) }
        ensures { Adds self.old (pair_line first.now a second.now b) self.new }
    {
        self.put(first);
        self.put_number(a);
        self.put(second);
        self.put_number(b);
        self.put(b"\n");
    }

    // Prints the header: how many jobs, how many rows.
    pub fn put_header(&mut self, n: u8, rows: u32)
        requires { HasRoom self.old line_bytes }
        ensures { Adds self.old (header_line n rows) self.new }
    {
        let jobs = u32::from(n);
        self.put_pair(b"jobs ", jobs, b" states ", rows);
    }

    // Prints a refusal: its number and detail.
    pub fn put_refusal(&mut self, number: u32, detail: u32)
        requires { HasRoom self.old line_bytes }
        ensures { Adds self.old (refusal_text number detail) self.new }
    {
        self.put_pair(b"refused ", number, b" ", detail);
    }
}
