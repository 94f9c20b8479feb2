// Lists: a count and its entries, one by one; and the items of lists of u16, u32 and slot types, as many as possible at
// once, as a run.
// Ports `read_vec` of serialize.rs, which is lent an entry's reader too. A run stops before an item that is refused, or
// whose words do not all fit the tape; the rest is read item by item.
// `as` stands between usize and u64, where Rust has no `From`.
#![tactic(auto)]

ghost use Rattle.std.proofs.lemmas.List.Edits.{sets};
ghost use Rattle.std.specs.Prelude.{ℕ, List, Bool, ◌≡◌, false, [], ◌∷◌, ◌+◌, ◌-◌, ◌*◌, ◌≤◌, ◌<◌, length};
ghost use Rattle.format.specs.Format.{counted, times, Format};
ghost use Rattle.format.specs.Reading.{little, part};
ghost use Rattle.vob24.specs.Settings.{settings_of};
ghost use Rattle.vob24.specs.Leaves.{u8, u16, u32, slot_type};
ghost use Rattle.vob24.specs.Grammar.{list};
ghost use Rattle.vob24_data.specs.Sizes.{size_number};
ghost use Rattle.reader.specs.Contract.{Ready, ReadyAt, Reader, NumberOf};
ghost use Rattle.reader.specs.Accepted.{Accepted};
ghost use Rattle.lists.specs.Runs.{advanced, Runs, width, numbers_at, Copied, Fits, Low, CopiedLow};
ghost use Rattle.lists.specs.Records.{bare_of};
ghost use Rattle.lists.specs.Fixed.{Sized, sized_byte, sized_half, sized_word, Flat, flat_byte, flat_half, flat_word};

use fields::{SlotType, U8, U16, U32};
use reader::{Cursor, ListAt, Read, Step};
use vob24_data::{Settings, Size};

// ---- lists of any entries

// What a run leaves of a list: how many items, and the cursor before them.
#[derive(Clone, Copy)]
pub struct Rest {
    pub items: u64,
    pub at: Cursor,
}

// An entry of a list, by its format and its reader.
// Each `impl` says its format in one line, so that the methods `read` are of one shape.
pub trait Entry {
    ghost format: { Self → Format };

    // Whether the pack is known to be taken: then a reader may leave out a question.
    ghost again: { Self → Bool };

    fn read(&self, s: &[u8], r: Step, tape: &mut [u32]) -> Step
        requires ready { Ready s.now r }
        requires accepted { Accepted (again self.now) (format self.now) s.now r }
        ensures { Reader (format self.now) s.now r tape.old result tape.new };

    // As many of n entries as can be read at once; none, where no impl says how.
    fn run(&self, s: &[u8], c: Cursor, n: u64, tape: &mut [u32]) -> Rest
        requires { ReadyAt s.now c }
        ensures { Runs (format self.now) s.now c tape.old n result tape.new }
    {
        Rest { items: n, at: c }
    }
}

// n entries: a run, and the rest one after the other.
pub fn entries<T: Entry>(s: &[u8], r: Step, n: u64, entry: &T, tape: &mut [u32]) -> Step
    requires ready { Ready s.now r }
    requires accepted { Accepted (T.again entry.now) (times (T.format entry.now) n) s.now r }
    ensures { Reader (times (T.format entry.now) n) s.now r tape.old result tape.new }
{
    let rest = entry.run(s, r?, n, tape);
    let mut here = rest.at;
    // No `for`: it keeps a count up and its end, and a short entry's loop has no register for both.
    let mut k = rest.items;
    while 0 < k {
        here = entry.read(s, Ok(here), tape)?;
        k -= 1;
    }
    Ok(here)
}

// The count of a list of entries, each of this size, and the entries. Also returns the count.
pub fn number_list<T: Entry>(
    s: &[u8],
    set: &Settings,
    c: Cursor,
    size: Size,
    entry: &T,
    tape: &mut [u32],
) -> Read<u64>
    requires ready { ReadyAt s.now c }
    requires accepted { Accepted (T.again entry.now) (list (settings_of set.now) (size_number size) (T.format entry.now)) s.now (Ok c) }
    ensures { NumberOf (list (settings_of set.now) (size_number size) (T.format entry.now)) counted s.now c tape.old result tape.new }
{
    let (n, d) = fields::number_count(s, set, c, size, tape)?;
    let e = entries(s, Ok(d), n, entry, tape)?;
    Ok((n, e))
}

// The same in the answer so far.
pub fn read_list<T: Entry>(
    s: &[u8],
    set: &Settings,
    r: Step,
    size: Size,
    entry: &T,
    tape: &mut [u32],
) -> Step
    requires ready { Ready s.now r }
    requires accepted { Accepted (T.again entry.now) (list (settings_of set.now) (size_number size) (T.format entry.now)) s.now r }
    ensures { Reader (list (settings_of set.now) (size_number size) (T.format entry.now)) s.now r tape.old result tape.new }
{
    let (_, d) = number_list(s, set, r?, size, entry, tape)?;
    Ok(d)
}

// ---- the lists of a record

// A kind, which holds no list itself, and its lists in file order; absent lists are empty. The kind stands last: before the
// lists its narrow numbers lie where a cursor's words do in an answer without a record, and a word written in halves is
// slow to read (docs/DESIGN-PASS.md, "Speed").
#[derive(Clone, Copy, PartialEq, Eq, Debug)]
pub struct WithLists<K> {
    pub first: ListAt,
    pub second: ListAt,
    pub kind: K,
}

// A kind that has no list.
pub fn bare<K>(kind: K) -> WithLists<K>
    ensures { result ≡ bare_of kind }
{
    WithLists {
        kind,
        first: ListAt { start: 0, count: 0 },
        second: ListAt { start: 0, count: 0 },
    }
}

// ---- runs

// Below this many slot types a run does not pay.
const SHORT: u64 = 16;

// Block size: each block is copied right after its test, while it is in the cache.
const PART: usize = 4096;

// ---- how many items

// The smaller of n and `most`.
fn fewer(n: u64, most: usize) -> usize
    ensures { (result ≤ n) × (result ≤ most) }
{
    n.min(most as u64) as usize
}

// How many of n items of `words` words fit from `at` on; all n where the tape has ended, as words are then only
// counted.
fn fitting(n: usize, words: usize, at: usize, length: usize) -> usize
    requires { 0 < words }
    ensures { (result ≤ n) × Fits words result at length }
{
    if length <= at {
        return n;
    }
    n.min((length - at) / words)
}

// The rest of n items after k of them, which took `bytes` bytes and `words` words.
pub fn remaining(c: Cursor, n: u64, k: usize, bytes: usize, words: usize) -> Rest
    requires { (k ≤ n) × (c.place + bytes < 18446744073709551616) × (c.at + words < 18446744073709551616) }
    ensures { result ≡ record { items = n - k; at = advanced c bytes words } }
{
    Rest {
        items: n - (k as u64),
        at: Cursor {
            place: c.place + bytes,
            left: c.left,
            at: c.at + words,
        },
    }
}

// ---- numbers

// The number of two bytes at p. One call of the library, a function so that its contract says it in the words of the
// layout.
pub fn half(s: &[u8], p: usize) -> u32
    requires { p + 2 ≤ length s.now }
    ensures { result ≡ little (part s.now p 2) }
{
    u32::from(u16::from_le_bytes([s[p], s[p + 1]]))
}

// ---- copies to the tape

// Entries of numbers that no rule refuses and no charge asks for, by their format and the widths of the numbers in
// bytes: their words can be copied many at once.
pub trait Fixed {
    ghost form: { Self → Format };

    ghost widths: { Self → List ℕ };

    const BYTES: usize;

    const WORDS: usize;

    ghost BYTES: { ℕ };

    ghost WORDS: { ℕ };

    // The words of the entry at p.
    fn put(&self, s: &[u8], p: usize, tape: &mut [u32], at: usize)
        requires there { p + width (widths self.now) ≤ length s.now }
        requires room { at + length (widths self.now) ≤ length tape.old }
        ensures { tape.new ≡ sets tape.old at (numbers_at (widths self.now) s.now p) };

    ghost sized: { (x : Self) → Sized (widths x) BYTES WORDS };

    ghost flat: { (x : Self) → Flat (form x) (widths x) };
}

impl Fixed for U8 {
    ghost form = { λ _. u8 };

    ghost widths = { λ _. 1 ∷ [] };

    const BYTES: usize = 1;

    const WORDS: usize = 1;

    ghost BYTES = { 1 };

    ghost WORDS = { 1 };

    ghost sized = { λ _. sized_byte };

    ghost flat = { λ _. flat_byte };

    fn put(&self, s: &[u8], p: usize, tape: &mut [u32], at: usize) {
        tape[at] = u32::from(s[p]);
    }
}

// The words of n entries, one after the other. Counts p and t by hand, as two places move together, by BYTES and by
// WORDS.
fn copy<T: Fixed>(s: &[u8], from: usize, n: usize, entry: &T, tape: &mut [u32], at: usize)
    requires there { from + width (T.widths entry.now) * n ≤ length s.now }
    requires fits { Fits (length (T.widths entry.now)) n at (length tape.old) }
    ensures { Copied (T.widths entry.now) n s.now from tape.old at tape.new }
{
    if tape.len() <= at {
        return;
    }
    let mut p = from;
    let mut t = at;
    for _ in 0..n {
        entry.put(s, p, tape, t);
        p += T::BYTES;
        t += T::WORDS;
    }
}

pub fn copy_bytes(s: &[u8], from: usize, n: usize, tape: &mut [u32], at: usize)
    requires { (from + n ≤ length s.now) × Fits 1 n at (length tape.old) }
    ensures { Copied (1 ∷ []) n s.now from tape.old at tape.new }
{
    copy(s, from, n, &U8, tape, at);
}

// ---- small bytes

// Is one of the n bytes at `from` above `most`? A fold has no early exit, so that it is compiled to vector code; `any`
// would have one.
fn one_above(s: &[u8], from: usize, n: usize, most: u8) -> bool
    requires { from + n ≤ length s.now }
    ensures { result ≡ false → Low s.now from (from + n) most }
{
    most < s[from..from + n].iter().fold(0u8, |m, b| m.max(*b))
}

// Copies the parts before the first with a byte above `most`. The contract does not say why it stopped: the item reader
// tests again from there. No iterator: a part's length is its step, and its copy goes to another index.
fn copy_low(s: &[u8], from: usize, n: usize, most: u8, tape: &mut [u32], at: usize) -> usize
    requires { (from + n ≤ length s.now) × (at + n < 18446744073709551616) × Fits 1 n at (length tape.old) }
    ensures { CopiedLow n s.now from most tape.old at result tape.new }
{
    let mut i = 0;
    while i < n {
        let m = (n - i).min(PART);
        if one_above(s, from + i, m, most) {
            return i;
        }
        copy_bytes(s, from + i, m, tape, at + i);
        i += m;
    }
    i
}

// ---- lists

impl Entry for SlotType {
    ghost format = { λ _. slot_type };

    ghost again = { λ _. false };

    fn read(&self, s: &[u8], r: Step, tape: &mut [u32]) -> Step {
        fields::field::<SlotType>(s, r, tape)
    }

    fn run(&self, s: &[u8], c: Cursor, n: u64, tape: &mut [u32]) -> Rest {
        if n < SHORT {
            return Rest { items: n, at: c };
        }
        let there = fewer(n, s.len() - c.place);
        let most = fitting(there, 1, c.at, tape.len());
        let k = copy_low(s, c.place, most, 5, tape, c.at);
        remaining(c, n, k, k, k)
    }
}

// As many of n entries as are there and as the tape has room for.
pub fn copied_run<T: Fixed>(s: &[u8], c: Cursor, n: u64, entry: &T, tape: &mut [u32]) -> Rest
    requires { ReadyAt s.now c }
    ensures { Runs (T.form entry.now) s.now c tape.old n result tape.new }
{
    let there = fewer(n, (s.len() - c.place) / T::BYTES);
    let k = fitting(there, T::WORDS, c.at, tape.len());
    copy(s, c.place, k, entry, tape, c.at);
    remaining(c, n, k, T::BYTES * k, T::WORDS * k)
}

impl Entry for U16 {
    ghost format = { λ _. u16 };

    ghost again = { λ _. false };

    fn read(&self, s: &[u8], r: Step, tape: &mut [u32]) -> Step {
        fields::field::<U16>(s, r, tape)
    }

    fn run(&self, s: &[u8], c: Cursor, n: u64, tape: &mut [u32]) -> Rest {
        copied_run(s, c, n, self, tape)
    }
}

impl Fixed for U16 {
    ghost form = { λ _. u16 };

    ghost widths = { λ _. 2 ∷ [] };

    const BYTES: usize = 2;

    const WORDS: usize = 1;

    ghost BYTES = { 2 };

    ghost WORDS = { 1 };

    ghost sized = { λ _. sized_half };

    ghost flat = { λ _. flat_half };

    fn put(&self, s: &[u8], p: usize, tape: &mut [u32], at: usize) {
        tape[at] = half(s, p);
    }
}

impl Entry for U32 {
    ghost format = { λ _. u32 };

    ghost again = { λ _. false };

    fn read(&self, s: &[u8], r: Step, tape: &mut [u32]) -> Step {
        fields::field::<U32>(s, r, tape)
    }

    fn run(&self, s: &[u8], c: Cursor, n: u64, tape: &mut [u32]) -> Rest {
        copied_run(s, c, n, self, tape)
    }
}

impl Fixed for U32 {
    ghost form = { λ _. u32 };

    ghost widths = { λ _. 4 ∷ [] };

    const BYTES: usize = 4;

    const WORDS: usize = 1;

    ghost BYTES = { 4 };

    ghost WORDS = { 1 };

    ghost sized = { λ _. sized_word };

    ghost flat = { λ _. flat_word };

    fn put(&self, s: &[u8], p: usize, tape: &mut [u32], at: usize) {
        tape[at] = reader::le4([s[p], s[p + 1], s[p + 2], s[p + 3]]);
    }
}
