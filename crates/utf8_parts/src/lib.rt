// Many bytes of a text at once: may each follow the three before it, and how many of them are trailing bytes?
// The rows of Table 3-7 of the Unicode Standard, seen from a byte and not from a character. A test only accepts: of
// bytes that it does not accept nothing is said.
// `as` stands where a number is known to fit a narrower type: a `TryFrom` would have a case that no caller meets.
#![tactic(auto)]

ghost use Rattle.std.specs.Prelude.{◌≡◌, true, ◌+◌, ◌-◌, ◌≤◌, ◌<◌, length};
ghost use Rattle.utf8_parts.specs.Parts.{Ascii, Flipped, Pair, Near, Stands, Tells, is_trailing, Most, Tests, PartOf, characters_of};

// ---- one byte against the three before it
// Each test is a sum of bytes whose bit 7 says "wrong", so that a loop only joins them: with no branch and no table it
// is compiled to vector code. `a.saturating_sub(k)` has it set where a is at least 128 + k.

fn only(a: u8, k: u8, x: u8) -> u8
    ensures { a ≡ k → result ≡ x }
{
    if a == k { x } else { 0 }
}

// 1 for a trailing byte, 80..BF.
fn trailing(b: u8) -> u8
    ensures { (result ≡ is_trailing b) × (result ≤ 1) }
{
    u8::from(b / 64 == 2)
}

// Bit 7 of m says that the bytes before b ask for a trailing byte; that of the result, that b is not what they ask for.
fn flipped(b: u8, m: u8) -> u8
    ensures { Flipped b m result }
{
    if b / 64 == 2 { 255 - m } else { m }
}

// Below 128 where b may follow c1, as far as these two tell.
fn pair(c1: u8, b: u8) -> u8
    ensures { result < 128 → Pair c1 b }
{
    let x = b.saturating_sub(0x20);
    only(b / 2, 0x60, 255) | only(c1, 0xe0, 255 - x) | only(c1, 0xed, x)
}

// Below 128 where b may follow the bytes before it, if none of them is above DF.
fn wrong_two(c3: u8, c2: u8, c1: u8, b: u8) -> u8
    ensures { result < 128 → c3 < 0xe0 → c2 < 0xe0 → c1 < 0xe0 → Near c3 c2 c1 b }
{
    flipped(b, c1.saturating_sub(0x40)) | only(b / 2, 0x60, 255)
}

// The same, if none is above EF.
fn wrong_three(c3: u8, c2: u8, c1: u8, b: u8) -> u8
    ensures { result < 128 → c3 < 0xf0 → c1 < 0xf0 → Near c3 c2 c1 b }
{
    flipped(b, c1.saturating_sub(0x40) | c2.saturating_sub(0x60)) | pair(c1, b)
}

// The same, if none is above F3.
fn wrong_four(c3: u8, c2: u8, c1: u8, b: u8) -> u8
    ensures { result < 128 → Near c3 c2 c1 b }
{
    let asked = c1.saturating_sub(0x40) | c2.saturating_sub(0x60) | c3.saturating_sub(0x70);
    flipped(b, asked) | pair(c1, b) | only(c1, 0xf0, 255 - b.saturating_sub(0x10))
}

// The same for any bytes.
fn wrong(c3: u8, c2: u8, c1: u8, b: u8) -> u8
    ensures { result < 128 → Stands c3 c2 c1 b }
{
    wrong_four(c3, c2, c1, b) | only(c1, 0xf4, b.saturating_sub(0x10)) | b.saturating_sub(0x75)
}

// ---- many bytes at once

// A multiple of 16, and so few that a u8 can count the trailing bytes.
const PART: usize = 240;

// The last first byte of a sequence, and the only one that asks for 80..8F.
const LAST: u8 = 0xf4;

// What was found of `width` bytes: `wrong` is below 128 where each may follow those before it; `trailing` counts the
// trailing bytes.
#[derive(Clone, Copy)]
pub struct Part {
    pub width: usize,
    pub wrong: u8,
    pub trailing: u8,
}

impl Part {
    // How many characters these bytes are, where each may follow those before it.
    pub fn characters(self) -> Option<usize>
        requires { self.trailing ≤ self.width }
        ensures { result ≡ characters_of self }
    {
        if self.wrong < 128 {
            Some(self.width - usize::from(self.trailing))
        } else {
            None
        }
    }
}

// The largest byte.
fn largest(s: &[u8]) -> u8
    ensures { Most s.now 0 (length s.now) result }
{
    let mut m: u8 = 0;
    for b in s {
        m = m.max(*b);
    }
    m
}

// A part, by a test that is enough for its bytes.
fn tested<F: Fn(u8, u8, u8, u8) -> u8>(s: &[u8], from: usize, test: F) -> Part
    requires callable { F.IsAlwaysCallable test }
    requires room { (3 ≤ from) × (from + 240 ≤ length s.now) }
    requires enough { Tells (F.post test) s.now from (from + 240) }
    ensures { Tests s.now from result × (result.width ≡ 240) }
{
    let mut m: u8 = 0;
    let mut n: u8 = 0;
    for k in 0..PART {
        let i = from + k;
        m |= test(s[i - 3], s[i - 2], s[i - 1], s[i]);
        n += trailing(s[i]);
    }
    Part {
        width: PART,
        wrong: m,
        trailing: n,
    }
}

// w where bit 7 of x is set, else below 128.
fn kept(x: u8, w: u8) -> u8
    ensures { 128 ≤ x → result < 128 → w < 128 }
{
    w & x
}

// n where bit 7 of x is set, else 0.
fn counted(x: u8, n: u8) -> u8
    requires { n ≤ 1 }
    ensures { (128 ≤ x → result ≡ n) × (x < 128 → result ≡ 0) × (result ≤ 1) }
{
    n & (x / 128)
}

// Are the last r of the 16 bytes before `to` below 128? x counts up, so that its bit 7 is set for these r and no
// others: with a comparison of places instead the vector code would have four bytes for each one.
pub fn low_sixteen(s: &[u8], to: usize, r: usize) -> bool
    requires { (16 ≤ to) × (to ≤ length s.now) × (r ≤ 16) }
    ensures { result ≡ true → Ascii s.now (to - r) to }
{
    let mut bits: u8 = 0;
    let from = to - 16;
    for k in 0..16 {
        let x = 112 + (r + k) as u8;
        bits |= kept(x, s[from + k]);
    }
    bits < 128
}

// The last r of the 16 bytes before `to`; x as in low_sixteen.
pub fn sixteen(s: &[u8], to: usize, r: usize) -> Part
    requires { (19 ≤ to) × (to ≤ length s.now) × (r ≤ 16) }
    ensures { Tests s.now (to - r) result × (result.width ≡ r) }
{
    let mut m: u8 = 0;
    let mut n: u8 = 0;
    let from = to - 16;
    for k in 0..16 {
        let x = 112 + (r + k) as u8;
        let i = from + k;
        m |= kept(x, wrong(s[i - 3], s[i - 2], s[i - 1], s[i]));
        n += counted(x, trailing(s[i]));
    }
    Part {
        width: r,
        wrong: m,
        trailing: n,
    }
}

// The next part of the bytes up to `end`, at least 16: the largest byte says which test will do.
pub fn next_part(s: &[u8], from: usize, end: usize) -> Part
    requires { (3 ≤ from) × (from + 16 ≤ end) × (end ≤ length s.now) }
    ensures { PartOf s.now from end result }
{
    if PART <= end - from {
        let m = largest(&s[from - 3..from + PART]);
        if m < 0x80 {
            return Part {
                width: PART,
                wrong: 0,
                trailing: 0,
            };
        }
        if m < 0xe0 {
            return tested(s, from, wrong_two);
        }
        if m < 0xf0 {
            return tested(s, from, wrong_three);
        }
        if m < LAST {
            return tested(s, from, wrong_four);
        }
    }
    sixteen(s, from + 16, 16)
}
