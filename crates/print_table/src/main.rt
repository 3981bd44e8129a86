// The printing program: a sheet as text on standard input, its table on standard output.

#![tactic(auto)]

ghost use Rattle.std.specs.Prelude.{◌≡◌, ◌≢◌, ◌≤◌, IfOk, length, take};
ghost use Rattle.std.specs.Io.{ReadsAtMost};
ghost use Rattle.std.specs.Io.KnownBytes.{Consumes, IsAtEnd};

use printing::{MOST_PRINTED, MOST_READ};
use std::io::{self, Read};

// Reads until the slice is full or the input ends, and answers how many bytes that is. By hand: of an input that ends early `read_exact` says
// too little, and a turn goes on behind what the one before it read.
fn read_text<R: Read>(input: &mut R, text: &mut [u8]) -> io::Result<usize>
    ensures bound { ReadsAtMost result text.new }
    ensures room { length text.new ≡ length text.old }
    ensures bytes { IfOk result (λ n. Consumes (R.remaining input.old) (R.remaining input.new) (take n text.new)) }
    ensures end { IfOk result (λ n. n ≢ length text.new → IsAtEnd (R.remaining input.new)) }
{
    let mut end: usize = 0;
    while end < text.len() {
        let more = input.read(&mut text[end..])?;
        if more == 0 {
            break;
        }
        end += more;
    }
    Ok(end)
}

// Where a read fails it says so and answers 0: the bytes that came before are not the text, and could be a shorter sheet. No bytes are
// refused as a text of another form.
fn read_or_tell<R: Read>(rt: &impl Eprint, input: &mut R, text: &mut [u8]) -> usize
    ensures { (result ≤ length text.new) × (result ≡ length (take result text.new)) }
{
    match read_text(input, text) {
        Ok(end) => end,
        Err(_) => {
            let _told = rt.eprintln("print_table: standard input can't be read");
            0
        }
    }
}

fn main(rt: HostRuntime) -> io::Result<()> {
    let mut text = [0u8; MOST_READ];
    let end = read_or_tell(&rt, &mut rt.stdin(), &mut text);
    let mut out = [0u8; MOST_PRINTED];
    let printed = printing::print(&mut out, &text[..end]);
    rt.write_all(&out[..printed])
}
