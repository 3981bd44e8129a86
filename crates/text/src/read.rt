// A sheet read from text, number after number.
ghost use Rattle.std.specs.Prelude.{◌≡◌, length};
ghost use Rattle.lines.specs.Digits.{Digit};
ghost use Rattle.text.specs.SheetText.{Reads};
ghost use Rattle.text.specs.Fields.{FoundTo, ending};

use lines::bytes::{LINE_END, SPACE, ZERO};
use std::marker::Model;

// The numbers of eight jobs.
const MOST: usize = 32;

// The digits of the longest number.
const MOST_DIGITS: usize = 3;

// The numbers of a sheet as a text says them, four to a job: the first `count` of an array, for there is no heap, and zeros past them.
#[derive(Clone, Copy)]
pub struct Numbers {
    numbers: [u16; MOST],
    count: usize,
}

impl Model for Numbers {
    ghost use Rattle.std.specs.Prelude.{ℕ, List, ◌-◌, ◌++◌, length, take, replicate};
    ghost use Rattle.text.specs.Padded.{Padded};
    ghost use Rattle.text.specs.PaddedLaws.{array_back, count_back};

    ghost Value = { List ℕ };

    ghost view = { λ n. take n.count n.numbers };

    ghost invariant = { λ n. Padded n.numbers n.count };

    ghost inverse = { λ l. record { numbers = l ++ replicate (32 - length l) 0; count = length l } };

    ghost inverse_ok = { λ a h i. record { numbers = array_back h i; count = count_back h i } };
}

impl Numbers {
    // The numbers, in their order.
    pub fn as_slice(&self) -> &[u16]
        ensures { result.now ≡ self.now }
    {
        &self.numbers[..self.count]
    }
}

// A number that stands in front of a text: how many digits it has, and its value.
struct Field {
    digits: usize,
    value: u16,
}

// The byte behind the number at place k, counted from 0: each fourth number ends its line.
fn end_of(k: usize) -> u8
    ensures { result ≡ ending k }
{
    if k % 4 == 3 { LINE_END } else { SPACE }
}

// The number of one to three digits in front of a text, with the byte `end` behind it. Digits are passed; the first other byte decides.
// By hand: `str::parse` takes a sign and any number of digits.
fn number_in_front(text: &[u8], end: u8) -> Option<Field>
    requires { ¬ (Digit end) }
    ensures { FoundTo end text.now result }
{
    let mut value: u16 = 0;
    for (digits, b) in text.iter().enumerate() {
        if *b == end {
            return if digits == 0 {
                None
            } else {
                Some(Field { digits, value })
            };
        }
        if digits == MOST_DIGITS || !b.is_ascii_digit() {
            return None;
        }
        value = 10 * value + u16::from(*b - ZERO);
    }
    None
}

// Reads a text as a sheet. Number after number is taken with the byte that has to stand behind it, so the text has one reading at most.
// No `for`: each turn goes on behind the number that it read.
pub fn parse(text: &[u8]) -> Option<Numbers>
    ensures { Reads text.now result }
{
    let mut numbers = [0; MOST];
    let mut count: usize = 0;
    let mut rest = text;
    while !rest.is_empty() {
        if count == MOST {
            return None;
        }
        let Field { digits, value } = number_in_front(rest, end_of(count))?;
        numbers[count] = value;
        count += 1;
        rest = &rest[digits + 1..];
    }
    if count == 0 || count % 4 != 0 {
        return None;
    }
    Some(Numbers { numbers, count })
}
