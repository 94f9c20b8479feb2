// The oracle's stored answers: reads a list's records one by one, and holds what a call answered against what a record
// says. oracle/README.md has the format.
#![tactic(auto)]

mod header;
mod records;
mod tally;

pub use header::{Header, Kind, TAPE_WORDS, UnknownKind, long, number};
pub use records::{Broken, Buffers, Record};
pub use tally::Tally;

// What an unwritten tape holds: the multiples of this number modulo 2^32.
const STEP: u32 = 2_654_435_769;

// Fills a tape, each word by its place, so that it shows what a call writes; the slices' `fill` would write one value.
pub fn fill(tape: &mut [u32]) {
    for (word, k) in tape.iter_mut().zip(1u32..) {
        *word = STEP.wrapping_mul(k);
    }
}

// The first place from `from` on at which a tape is no longer as `fill` left it, or its length.
fn first_written(tape: &[u32], from: usize) -> usize {
    tape.iter()
        .zip(1u32..)
        .enumerate()
        .skip(from)
        .find(|(_, (word, k))| **word != STEP.wrapping_mul(*k))
        .map_or(tape.len(), |(i, _)| i)
}

fn sum_of(words: &[u32]) -> u32 {
    words
        .iter()
        .fold(0u32, |sum, word| sum.wrapping_mul(31).wrapping_add(*word))
}

// The first place at which a tape is not as its words are stored, or its length.
fn first_other(tape: &[u32], stored: &[[u8; 4]]) -> usize {
    tape.iter()
        .zip(stored)
        .position(|(word, bytes)| *word != u32::from_le_bytes(*bytes))
        .unwrap_or(tape.len())
}

// The first place at which `b` is not as `a`, or the length of the shorter.
fn first_differing(a: &[u8], b: &[u8]) -> usize {
    a.iter()
        .zip(b)
        .position(|(x, y)| x != y)
        .unwrap_or(a.len().min(b.len()))
}
