// Answers for the pack on standard input, of at most 65,536 bytes, under the Rust's budget and with a tape of 16,384
// words, in one line: `taken WORDS BYTES CHARGED LEFT` or `refused NUMBER C D1 D2 PLACE LEFT`.
#![tactic(auto)]

ghost use Rattle.std.specs.Prelude.{◌≤◌, length, IfOk};

use calls::Taken;
use reader::Refusal;
use std::io::Read;
use std::{fmt, io};

const MOST: usize = 65536;

// An answer, printed as its line.
#[derive(Drop)]
struct Line(Result<Taken, Refusal>);

impl fmt::Display for Line {
    fn fmt<W: fmt::Write>(&self, f: &mut fmt::Formatter<W>) -> fmt::Result {
        match self.0 {
            Ok(
                Taken {
                    words,
                    bytes,
                    charged,
                    left,
                },
            ) => write!(f, "taken {words} {bytes} {charged} {left}"),
            Err(r) => write!(
                f,
                "refused {} {} {} {} {} {}",
                u64::from(r.kind),
                r.context,
                r.detail1,
                r.detail2,
                r.place,
                r.left
            ),
        }
    }
}

// Reads to `buf` until it is full or the input ends, and says how many bytes. No `for`: a read gives as many as it likes.
fn read_input(input: &mut impl Read, buf: &mut [u8]) -> io::Result<usize>
    ensures { IfOk result (λ n. n ≤ length buf.old) }
{
    let mut at = 0;
    while at < buf.len() {
        match input.read(&mut buf[at..])? {
            0 => break,
            n => at += n,
        }
    }
    Ok(at)
}

fn check(rt: &impl Print, pack: &[u8]) -> io::Result<()> {
    // An array, as `buf` below.
    let mut tape = [0; 16384];
    let answer = pack::read(pack, pack::STARTING_BUDGET, &mut tape);
    println!(rt; "{}", Line(answer))
}

fn main(rt: HostRuntime) -> io::Result<()> {
    // One byte more than a pack may have, which shows an input that is too long. No `Vec`: the proof would rest on the C
    // library's heap too.
    let mut buf = [0; 65537];
    match read_input(&mut rt.stdin(), &mut buf) {
        Ok(n) if n > MOST => println!(rt; "too long for packcheck"),
        Ok(n) => check(&rt, &buf[..n]),
        Err(_) => println!(rt; "cannot read standard input"),
    }
}
