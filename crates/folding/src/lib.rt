// The bytes of a name as if its letters with a canonical decomposition were decomposed: one by one, without a copy of
// the name.
// `as` stands where a number is known to fit a narrower type: a `TryFrom` would have a case that no caller meets.
#![tactic(auto)]

ghost use Rattle.std.specs.Prelude.{◌≡◌, ◌+◌, ◌-◌, ◌*◌, ◌≤◌, ◌<◌, length};
ghost use Rattle.vob24.specs.Utf8.{in?};
ghost use Rattle.folding.specs.Contract.{FoldAt, past, Ready, NextIs, PrefixIs, RunIs, SameFolded, WithoutIs};

// For each letter from U+00C0 to U+017F: 0 where it has none, else its base letter times 256 and the last byte of its
// mark, whose first byte is CC. As 192 pairs or options the table would be no plainer.
const DECOMPOSED: [u16; 192] = [
    0x4180, 0x4181, 0x4182, 0x4183, 0x4188, 0x418a, 0, 0x43a7, 0x4580, 0x4581, 0x4582, 0x4588,
    0x4980, 0x4981, 0x4982, 0x4988, 0, 0x4e83, 0x4f80, 0x4f81, 0x4f82, 0x4f83, 0x4f88, 0, 0,
    0x5580, 0x5581, 0x5582, 0x5588, 0x5981, 0, 0, 0x6180, 0x6181, 0x6182, 0x6183, 0x6188, 0x618a,
    0, 0x63a7, 0x6580, 0x6581, 0x6582, 0x6588, 0x6980, 0x6981, 0x6982, 0x6988, 0, 0x6e83, 0x6f80,
    0x6f81, 0x6f82, 0x6f83, 0x6f88, 0, 0, 0x7580, 0x7581, 0x7582, 0x7588, 0x7981, 0, 0x7988,
    0x4184, 0x6184, 0x4186, 0x6186, 0x41a8, 0x61a8, 0x4381, 0x6381, 0x4382, 0x6382, 0x4387, 0x6387,
    0x438c, 0x638c, 0x448c, 0x648c, 0, 0, 0x4584, 0x6584, 0x4586, 0x6586, 0x4587, 0x6587, 0x45a8,
    0x65a8, 0x458c, 0x658c, 0x4782, 0x6782, 0x4786, 0x6786, 0x4787, 0x6787, 0x47a7, 0x67a7, 0x4882,
    0x6882, 0, 0, 0x4983, 0x6983, 0x4984, 0x6984, 0x4986, 0x6986, 0x49a8, 0x69a8, 0x4987, 0, 0, 0,
    0x4a82, 0x6a82, 0x4ba7, 0x6ba7, 0, 0x4c81, 0x6c81, 0x4ca7, 0x6ca7, 0x4c8c, 0x6c8c, 0, 0, 0, 0,
    0x4e81, 0x6e81, 0x4ea7, 0x6ea7, 0x4e8c, 0x6e8c, 0, 0, 0, 0x4f84, 0x6f84, 0x4f86, 0x6f86,
    0x4f8b, 0x6f8b, 0, 0, 0x5281, 0x7281, 0x52a7, 0x72a7, 0x528c, 0x728c, 0x5381, 0x7381, 0x5382,
    0x7382, 0x53a7, 0x73a7, 0x538c, 0x738c, 0x54a7, 0x74a7, 0x548c, 0x748c, 0, 0, 0x5583, 0x7583,
    0x5584, 0x7584, 0x5586, 0x7586, 0x558a, 0x758a, 0x558b, 0x758b, 0x55a8, 0x75a8, 0x5782, 0x7782,
    0x5982, 0x7982, 0x5988, 0x5a81, 0x7a81, 0x5a87, 0x7a87, 0x5a8c, 0x7a8c, 0,
];

// Does b open a letter from U+00C0 to U+017F?
pub fn opens(b: u8) -> bool
    ensures { result ≡ in? 195 197 b }
{
    matches!(b, 195..=197)
}

// Does b end one?
fn ends(b: u8) -> bool
    ensures { result ≡ in? 128 191 b }
{
    matches!(b, 128..=191)
}

// A letter decomposed: its base letter, and the last byte of its mark.
#[derive(Clone, Copy)]
pub struct Letter {
    pub base: u8,
    pub mark: u8,
}

// The letter that the bytes from `at` to `end` open with, where it is one that decomposes.
pub fn fold_at(s: &[u8], at: usize, end: usize) -> Option<Letter>
    requires { (at < end) × (end ≤ length s.now) }
    ensures { FoldAt s.now at end result }
{
    let lead = s[at];
    if !opens(lead) || end <= at + 1 {
        return None;
    }
    let last = s[at + 1];
    if !ends(last) {
        return None;
    }
    let entry = DECOMPOSED[(usize::from(lead) - 195) * 64 + (usize::from(last) - 128)];
    if entry == 0 {
        return None;
    }
    Some(Letter {
        base: (entry / 256) as u8,
        mark: (entry % 256) as u8,
    })
}

// The bytes of a mark that are still to come.
#[derive(Clone, Copy)]
enum Held {
    Nothing,
    Last(u8),
    Both(u8),
}

// The folded bytes of a name that are still to come: those of a mark, then what the bytes from `at` to `end` fold to.
#[derive(Clone, Copy)]
struct Rest {
    held: Held,
    at: usize,
    end: usize,
}

impl Rest {
    // The first of them, and the rest.
    fn next(self, s: &[u8]) -> Option<(u8, Rest)>
        requires { self.end ≤ length s.now }
        ensures { NextIs s.now self result }
    {
        match self.held {
            Held::Both(mark) => Some((
                204,
                Rest {
                    held: Held::Last(mark),
                    ..self
                },
            )),
            Held::Last(mark) => Some((
                mark,
                Rest {
                    held: Held::Nothing,
                    ..self
                },
            )),
            Held::Nothing => {
                if self.end <= self.at {
                    return None;
                }
                match fold_at(s, self.at, self.end) {
                    None => Some((s[self.at], self.past(1))),
                    Some(letter) => Some((
                        letter.base,
                        Rest {
                            held: Held::Both(letter.mark),
                            at: self.at + 2,
                            ..self
                        },
                    )),
                }
            }
        }
    }

    // After n more bytes, which fold to themselves.
    fn past(self, n: usize) -> Rest
        requires { self.at + n ≤ self.end }
        ensures { result ≡ past self n }
    {
        Rest {
            at: self.at + n,
            ..self
        }
    }
}

// How many bytes at a and at b, up to e and f, are the same and open no letter: they fold to themselves on both sides.
fn same_prefix(s: &[u8], a: usize, e: usize, b: usize, f: usize) -> usize
    requires { (a ≤ e) × (e ≤ length s.now) × (b ≤ f) × (f ≤ length s.now) }
    ensures { PrefixIs s.now a e b f result }
{
    let n = (e - a).min(f - b);
    for i in 0..n {
        if s[a + i] != s[b + i] || opens(s[a + i]) {
            return i;
        }
    }
    n
}

// The same of two rests where bytes of a mark may be still to come, before which nothing is passed over.
fn same_run(s: &[u8], left: Rest, right: Rest) -> usize
    requires { (Ready s.now left) × (Ready s.now right) }
    ensures { RunIs s.now left right result }
{
    match (left.held, right.held) {
        (Held::Nothing, Held::Nothing) => { same_prefix(s, left.at, left.end, right.at, right.end) }
        _ => 0,
    }
}

// Are the m bytes at a and the n bytes at b the same when folded? What they have in common is passed over wherever neither
// is within a letter: names that begin alike, in two forms, are compared as fast as in one.
pub fn same_folded(s: &[u8], a: usize, m: usize, b: usize, n: usize) -> bool
    requires { (a + m ≤ length s.now) × (b + n ≤ length s.now) }
    ensures { SameFolded s.now a m b n result }
{
    let k = same_prefix(s, a, a + m, b, b + n);
    let mut left = Rest {
        held: Held::Nothing,
        at: a + k,
        end: a + m,
    };
    let mut right = Rest {
        held: Held::Nothing,
        at: b + k,
        end: b + n,
    };
    // Letters of two names, taken until one name ends: no count does.
    while let Some((x, fore)) = left.next(s) {
        let Some((y, back)) = right.next(s) else {
            return false;
        };
        if x != y {
            return false;
        }
        let run = same_run(s, fore, back);
        left = fore.past(run);
        right = back.past(run);
    }
    right.next(s).is_none()
}

// Is none of the n bytes at p from low to high?
pub fn without(s: &[u8], p: usize, n: usize, low: u8, high: u8) -> bool
    requires { p + n ≤ length s.now }
    ensures { WithoutIs s.now p n low high result }
{
    s[p..p + n].iter().all(|b| !(low..=high).contains(b))
}
