// The types that readers pass on, the contract that they share and its laws, numbers of fixed width, and charges.
// Ports `struct ByteReader` of serialize.rs and its plainest methods: place and budget go in by value, as a Cursor, and
// come back in the answer. No leaf writes to the tape; the field readers of crate fields do, by `keep`. Pack, settings and
// tape stay parameters: of a struct that is lent as a whole each contract would have to say too that the pack, the settings
// and the loan of the tape stay, and a bare pack and one of code took more instructions (docs/DESIGN-PASS.md, 5).
// `as` stands between usize and u64, where Rust has no `From`, and where a number is known to fit a narrower type.
#![tactic(auto)]

ghost use Rattle.std.specs.Prelude.{◌+◌, ◌%◌, ◌/◌, ◌<◌, ◌≡◌, set};
ghost use Rattle.std.specs.Float.{binary64};
ghost use Rattle.std.specs.Float.Ieee.{of_bits};
ghost use Rattle.std.specs.Int.{w64};
ghost use Rattle.std.proofs.Common.{to_z};
ghost use Rattle.format.specs.Reading.{little};
ghost use Rattle.format.specs.Trace.{wrong, refused};
ghost use Rattle.reader.specs.Contract.{told, ReadyAt, Wordy, Kept, WordyPair, KeptPair, Paid};
ghost use Rattle.reader.specs.Numbers.{kind_number, context_number};
ghost use Rattle.reader.specs.Leaves.{past, FetchesBytes, Fetches, FetchesSigned, FetchesFloat};

mod kinds;

pub use kinds::{Context, Kind, Part};

// Place in the pack, budget left, and words counted so far.
#[derive(Clone, Copy, PartialEq, Eq, Debug)]
pub struct Cursor {
    pub place: usize,
    pub left: u64,
    pub at: usize,
}

#[derive(Clone, Copy, PartialEq, Eq, Debug)]
pub struct Refusal {
    pub kind: Kind,
    pub context: u64,
    pub detail1: u64,
    pub detail2: u64,
    pub place: usize,
    pub left: u64,
}

// The answer so far: a reader takes it and returns the next.
pub type Step = Result<Cursor, Refusal>;

// A leaf's answer: a value and the cursor past it, or the refusal.
pub type Read<T> = Result<(T, Cursor), Refusal>;

// A part of the pack.
#[derive(Clone, Copy, PartialEq, Eq, Debug)]
pub struct Span {
    pub start: usize,
    pub length: usize,
}

// A text, and how many characters it has.
#[derive(Clone, Copy, PartialEq, Eq, Debug)]
pub struct Text {
    pub span: Span,
    pub characters: usize,
}

// A value with the bits that it was read from, of which its words are made.
#[derive(Clone, Copy)]
pub struct Bits<T> {
    pub value: T,
    pub bits: u64,
}

// A list that was read: the place of its first entry in the pack, and its count.
#[derive(Clone, Copy, PartialEq, Eq, Debug)]
pub struct ListAt {
    pub start: usize,
    pub count: usize,
}

// The list of n entries whose count is at the cursor.
pub fn list_at(s: &[u8], c: Cursor, n: u64) -> ListAt
    requires { ReadyAt s.now c }
    ensures { result ≡ record { start = c.place + 4; count = n } }
{
    ListAt {
        start: c.place + 4,
        count: n as usize,
    }
}

// The refusal at a cursor, with its kind and first detail only.
pub fn refuse(c: Cursor, kind: Kind, detail1: u64) -> Refusal
    ensures { told result ≡ refused (wrong (kind_number kind) detail1) c.place c.left }
{
    Refusal {
        kind,
        context: 0,
        detail1,
        detail2: 0,
        place: c.place,
        left: c.left,
    }
}

// ---- the tape

// Stores only where the tape has the place: lent as an empty part it only counts.
pub fn put(tape: &mut [u32], at: usize, word: u32)
    ensures { tape.new ≡ set tape.old at word }
{
    if at < tape.len() {
        tape[at] = word;
    }
}

// One word at the cursor.
pub fn keep(c: Cursor, word: u64, tape: &mut [u32]) -> Cursor
    requires { Wordy c word }
    ensures { Kept c word tape.old result tape.new }
{
    put(tape, c.at, word as u32);
    Cursor { at: c.at + 1, ..c }
}

// Two words: an optional id, a text or a payload.
pub fn keep_pair(c: Cursor, low: u64, high: u64, tape: &mut [u32]) -> Cursor
    requires { WordyPair c low high }
    ensures { KeptPair c low high tape.old result tape.new }
{
    let d = keep(c, low, tape);
    keep(d, high, tape)
}

// A 64-bit number, its low word first.
pub fn keep_long(c: Cursor, n: u64, tape: &mut [u32]) -> Cursor
    requires { WordyPair c (n % 4294967296) (n / 4294967296) }
    ensures { KeptPair c (n % 4294967296) (n / 4294967296) tape.old result tape.new }
{
    keep_pair(c, n % 0x1_0000_0000, n / 0x1_0000_0000, tape)
}

// ---- fixed widths

pub fn le4(b: [u8; 4]) -> u32
    ensures { result ≡ little b }
{
    u32::from_le_bytes(b)
}

// The cursor n bytes on.
fn past(n: usize, c: Cursor) -> Cursor
    requires { c.place + n < 18446744073709551616 }
    ensures { result ≡ past n c }
{
    Cursor {
        place: c.place + n,
        ..c
    }
}

// The next N bytes, and the cursor past them.
pub fn fetch<const N: usize>(s: &[u8], c: Cursor) -> Read<[u8; N]>
    requires { ReadyAt s.now c }
    ensures { FetchesBytes N s.now c result }
{
    let rest = &s[c.place..];
    let Some(bytes) = rest.first_chunk::<N>() else {
        return Err(refuse(c, Kind::UnexpectedEof, 0));
    };
    Ok((*bytes, past(N, c)))
}

pub fn read_u8(s: &[u8], c: Cursor) -> Read<u64>
    requires { ReadyAt s.now c }
    ensures { Fetches 1 s.now c result }
{
    let (bytes, d) = fetch::<1>(s, c)?;
    Ok((u64::from(bytes[0]), d))
}

// `read_u16` and `read_u32` differ in the type whose `from_le_bytes` reads them.
pub fn read_u16(s: &[u8], c: Cursor) -> Read<u64>
    requires { ReadyAt s.now c }
    ensures { Fetches 2 s.now c result }
{
    let (bytes, d) = fetch::<2>(s, c)?;
    Ok((u64::from(u16::from_le_bytes(bytes)), d))
}

// Also `read_i32`: a signed number is its bits. Differs from `read_u16` in the type whose `from_le_bytes` reads it.
pub fn read_u32(s: &[u8], c: Cursor) -> Read<u64>
    requires { ReadyAt s.now c }
    ensures { Fetches 4 s.now c result }
{
    let (bytes, d) = fetch::<4>(s, c)?;
    Ok((u64::from(u32::from_le_bytes(bytes)), d))
}

pub fn read_u64(s: &[u8], c: Cursor) -> Read<u64>
    requires { ReadyAt s.now c }
    ensures { Fetches 8 s.now c result }
{
    let (bytes, d) = fetch::<8>(s, c)?;
    Ok((u64::from_le_bytes(bytes), d))
}

// The f64 with these bits. The logic has one NaN, so every NaN's bits give 0.0 / 0.0 (docs/DIFFERENCES.md).
fn f64_of(n: u64) -> f64
    ensures { result ≡ of_bits binary64 n }
{
    if 0x7ff0_0000_0000_0000 < n % 0x8000_0000_0000_0000 {
        0.0 / 0.0
    } else {
        f64::from_bits(n)
    }
}

pub fn read_i64(s: &[u8], c: Cursor) -> Read<Bits<i64>>
    requires { ReadyAt s.now c }
    ensures { FetchesSigned s.now c result }
{
    let (bits, d) = read_u64(s, c)?;
    let value = bits.cast_signed();
    Ok((Bits { value, bits }, d))
}

pub fn read_f64(s: &[u8], c: Cursor) -> Read<Bits<f64>>
    requires { ReadyAt s.now c }
    ensures { FetchesFloat s.now c result }
{
    let (bits, d) = read_u64(s, c)?;
    let value = f64_of(bits);
    Ok((Bits { value, bits }, d))
}

// ---- charges

pub fn charge_allocation(c: Cursor, context: Context, requested: u64) -> Step
    ensures { Paid (context_number context) requested c result }
{
    let left = c.left;
    if left < requested {
        return Err(Refusal {
            kind: Kind::AllocationBudgetExceeded,
            context: u64::from(context),
            detail1: requested,
            detail2: left,
            place: c.place,
            left,
        });
    }
    Ok(Cursor {
        left: left - requested,
        ..c
    })
}
