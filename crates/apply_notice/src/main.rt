// Reads one notice, the first 16,384 bytes of standard input, applies it to a fresh book with a notice period of 7 days, and
// prints the result: refusal number, entries, last received day, latest effective day.
#![tactic(auto)]

ghost use Rattle.std.specs.Prelude.{◌≤◌, IfOk, length};

use history::Applied;
use refusal::Refusal;
use std::fmt;
use std::io::{self, Read};

const PERIOD: u64 = 7;

// What applying a notice comes to, as one line.
#[derive(Clone, Copy)]
struct Outcome(Result<Applied, Refusal>);

impl fmt::Display for Outcome {
    fn fmt<W: fmt::Write>(&self, f: &mut fmt::Formatter<W>) -> fmt::Result {
        match self.0 {
            Ok(a) => write!(f, "0 {} {} {}", a.entries, a.received, a.latest),
            Err(e) => write!(f, "{} 0 0 0", u64::from(e)),
        }
    }
}

// Applies a notice to a fresh book.
fn apply(notice: &[u8]) -> Result<Applied, Refusal> {
    let mut old = [0u64; book_words::HEADER_WORDS];
    let mut new = [0u64; 8192];
    book::fresh(&mut old, PERIOD)?;
    update::apply(&old, notice, &mut new)
}

// The bytes that a reader has, until the buffer is full: how many there are.
fn fill<R: Read + Drop>(mut input: R, bytes: &mut [u8]) -> io::Result<usize>
    ensures { IfOk result (λ n. n ≤ length bytes.new) }
{
    let mut filled = 0;
    // Not a walk: a reader gives as many bytes as it has, and the library's `read_to_end` wants a heap.
    while filled < bytes.len() {
        let read = input.read(&mut bytes[filled..])?;
        if read == 0 {
            break;
        }
        filled += read;
    }
    Ok(filled)
}

fn main(rt: HostRuntime) -> io::Result<()> {
    let mut bytes = [0u8; 16384];
    let n = fill(rt.reader(), &mut bytes)?;
    println!(rt; "{}", Outcome(apply(&bytes[..n])))
}
