// Fast path for zero bytes, which are lists without entries: a small pack has no types, or no code, or no artifacts and
// debug information.
// The Rust has none of these; it reads each by `read_vec` of serialize.rs.
#![tactic(auto)]

ghost use Rattle.std.specs.Prelude.{true, ◌≡◌, ◌≤◌};
ghost use Rattle.reader.specs.Contract.{ReadyAt};
ghost use Rattle.empty_lists.specs.Empty.{Zeros, PastEmpty};

use reader::Cursor;

// Are the n lists from c on empty?
pub fn empty_at(s: &[u8], c: Cursor, n: usize) -> bool
    requires { (ReadyAt s.now c) × (n ≤ 5) }
    ensures { result ≡ true → Zeros s.now c.place n }
{
    let p = c.place;
    if s.len() - p < 4 * n {
        return false;
    }
    let mut sum = 0;
    for i in 0..n {
        sum += in_place::word_at(s, p + 4 * i);
    }
    sum == 0
}

// An empty list: its count, and no item.
fn past(s: &[u8], c: Cursor, tape: &mut [u32]) -> Cursor
    requires { ReadyAt s.now c }
    ensures { PastEmpty 1 c tape.old result tape.new }
{
    let d = reader::keep(c, 0, tape);
    Cursor {
        place: c.place + 4,
        ..d
    }
}

// n of them.
pub fn past_empty(s: &[u8], c: Cursor, n: usize, tape: &mut [u32]) -> Cursor
    requires { (ReadyAt s.now c) × (Zeros s.now c.place n) }
    ensures { PastEmpty n c tape.old result tape.new }
{
    let mut here = c;
    for _ in 0..n {
        here = past(s, here, tape);
    }
    here
}
