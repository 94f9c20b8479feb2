// Packed numbers where they stand in a pack that was read: each ends with its one byte below 128.
ghost use Rattle.std.specs.Prelude.{◌≡◌, ◌+◌, ◌≤◌, length};
ghost use Rattle.vob24.specs.Leaves.{source_u32};
ghost use Rattle.vob24.specs.Grammar.{location};
ghost use Rattle.in_place.specs.Contract.{Placed};
ghost use Rattle.source_lines.specs.Packed.{ending, endings, Skips, NumbersAt, PackedIs, LocationIs};

use reader::Cursor;

// As many bytes as are looked at together.
const BLOCK: usize = 32;

// A packed number, and the place past it or past the location that it opens.
#[derive(Clone, Copy)]
pub(crate) struct Packed {
    pub(crate) value: u64,
    pub(crate) next: usize,
}

// 1 for a byte that ends a packed number.
fn ends(b: u8) -> u8
    ensures { (result ≡ ending b) × (result ≤ 1) }
{
    u8::from(b < 128)
}

// How many of the bytes of a block end one: with no branch and no early end the loop is compiled to vector code.
fn ends_in(s: &[u8], p: usize) -> u8
    requires { p + 32 ≤ length s.now }
    ensures { (result ≡ endings s.now p 32) × (result ≤ 32) }
{
    let mut n: u8 = 0;
    for k in 0..BLOCK {
        n += ends(s[p + k]);
    }
    n
}

// The place past the packed number at p. No `for`, as the number's last byte ends the loop and no count does, and no
// `position`, as it would be an `Option` whose `None` the pack rules out.
fn past_number(s: &[u8], p: usize) -> usize
    requires { NumbersAt 1 s.now p }
    ensures { Skips s.now 1 p result }
{
    let mut at = p;
    while 127 < s[at] {
        at += 1;
    }
    at + 1
}

// The place past n packed numbers. Where more are to come than a block has bytes, the block is all theirs; how many end in
// it is found, so that no range counts the blocks.
pub(crate) fn past_numbers(s: &[u8], p: usize, n: usize) -> usize
    requires { NumbersAt n s.now p }
    ensures { Skips s.now n p result }
{
    let mut at = p;
    let mut k = n;
    while BLOCK < k {
        k -= usize::from(ends_in(s, at));
        at += BLOCK;
    }
    for _ in 0..k {
        at = past_number(s, at);
    }
    at
}

// The packed number at p; of one byte, as most are, by itself, else by its leaf.
fn packed_at(s: &[u8], p: usize) -> Packed
    requires { Placed source_u32 s.now p }
    ensures { PackedIs s.now p result }
{
    let first = s[p];
    if first < 128 {
        return Packed {
            value: u64::from(first),
            next: p + 1,
        };
    }
    let c = Cursor {
        place: p,
        left: 0,
        at: 0,
    };
    let q = number_leaves::read_source_u32(s, c);
    match q {
        Ok((value, d)) => Packed {
            value,
            next: d.place,
        },
        Err(_) => Packed { value: 0, next: p },
    }
}

// The address of the location at p, which is its first number; then file_id, line, col and len are passed over.
pub(crate) fn location_at(s: &[u8], p: usize) -> Packed
    requires { Placed location s.now p }
    ensures { LocationIs s.now p result }
{
    let pc = packed_at(s, p);
    let rest = pc.next;
    let line = past_number(s, rest);
    let col = past_number(s, line);
    let len = past_number(s, col);
    Packed {
        value: pc.value,
        next: past_number(s, len),
    }
}
