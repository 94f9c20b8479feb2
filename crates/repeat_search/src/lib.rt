// The first item of a table that repeats one before it. A filter says which items are to be compared with all before
// them.
// Stands in for the HashMap and HashSet by which serialize.rs finds repeats.
// `as` stands between usize and u64, where Rust has no `From`, and where a number is known to fit a narrower type.
#![tactic(auto)]

ghost use Rattle.std.specs.Prelude.{◌≡◌, ◌+◌, ◌≤◌, ◌<◌, length};
ghost use Rattle.format.specs.Reading.{part};
ghost use Rattle.vob24.specs.Grammar.{runtime_field};
ghost use Rattle.in_place.specs.Items.{format_of, text_at};
ghost use Rattle.in_place.specs.Tables.{format_in};
ghost use Rattle.repeat_search.specs.Keys.{repeat_at, FirstRepeat};
ghost use Rattle.repeat_search.specs.Marks.{Marked, AllNew};
ghost use Rattle.repeat_search.specs.Hashes.{mixed, folded, ended, second_seed, tail_hash, lows, PartAt, JoinIs, HashIs, Streams, TakenIn};
ghost use Rattle.repeat_search.specs.Filters.{mask_of, Lacks, Entered, Outside, ClassedBy, Noted, Filter, Probed, PassedOr, Suspects, FirstOr};
ghost use Rattle.repeat_search.specs.Tables.{keys_at, keys_of, key_hash, mark_in, Sought, ExemptIs, TextMark, MarkIs, TextHash, TextTail, EndedHash, FoldedHash, PackageHash, KeyHash, Standing, Listed};
ghost use Rattle.in_place.specs.Contract.{TextAt, WordIs, Placed, Items};

use in_place::{Item, Table};

// Below this many items: one word of marks.
const FEW: usize = 24;

// Below this many: a small filter.
const MIDDLING: usize = 1024;

// Below this many: a large filter, of which each word then has 1.5 items; from here on suspects are looked for first.
const MANY: usize = 24576;

// How many items are searched for suspects at once: twelve to a word of the filter.
const CLASS: u64 = 196608;

// How many comparisons with all items before find no repeat, in one pass, before another seed is tried. Evenly spread
// hashes make some two; each that names are made to cause costs a walk over the table.
const IN_VAIN: usize = 12;

// How many seeds are tried before all items are compared.
const SEEDS: usize = 16;

const FIRST_SEED: u32 = 2654435761;

// Too many comparisons found no repeat.
#[derive(Clone, Copy)]
struct GaveUp;

// n items of a table, from a place on.
#[derive(Clone, Copy)]
struct Listing {
    table: Table,
    from: usize,
    n: usize,
}

// The classes of hashes from `lo` to `hi`.
#[derive(Clone, Copy)]
struct Classes {
    lo: u64,
    hi: u64,
}

const ALL_CLASSES: Classes = Classes { lo: 0, hi: 65536 };

// ---- whether an item repeats one before it

// May the name at p be repeated? A `match`, as one arm is a call with a contract of its own and the other a value.
fn exempt(s: &[u8], table: Table, p: usize) -> bool
    requires { TextAt s.now p }
    ensures { ExemptIs table s.now p result }
{
    match table {
        Table::Fields | Table::Identities | Table::Alike(Item::StructField) => {
            in_place::blank(s, p)
        }
        Table::Methods(_) | Table::Alike(_) => false,
    }
}

// A bit for the text at p, by its length and its last byte. For an empty text the last byte is that of its length word.
fn mark_text(s: &[u8], p: usize) -> u64
    requires { TextAt s.now p }
    ensures { TextMark s.now p result }
{
    let n = in_place::word_at(s, p);
    1 << ((n as u64 + u64::from(s[p + 3 + n])) % 64)
}

// A bit for the name at p: where names are folded, by its hash.
// A `match`, as the arms are calls of different contracts: a closure's type would have to say each.
fn mark(s: &[u8], table: Table, p: usize) -> u64
    requires { TextAt s.now p }
    ensures { MarkIs table s.now p result }
{
    match table {
        Table::Alike(_) => 1 << (hash_folded(s, p, FIRST_SEED) % 64),
        _ => mark_text(s, p),
    }
}

// Does the item at p, which has the mark m, repeat one of the i before it? It repeats none if its mark is new.
fn repeats_one(s: &[u8], list: Listing, i: usize, p: usize, marks: u64, m: u64) -> bool
    requires { (Standing list.table s.now list.from i p) × (Marked (mark_in list.table) (keys_of s.now list) i marks)
        × (MarkIs list.table s.now p m) }
    ensures { result ≡ repeat_at (keys_of s.now list) i }
{
    if marks & m != m || exempt(s, list.table, p) {
        return false;
    }
    in_place::seen(s, list.table, list.from, i, p)
}

// Have the names of the n items from `from` on different marks, as they stand? True for most small tables. Not asked
// where names are folded: a mark is then a hash, and `scan` takes it as well.
fn all_new(s: &[u8], table: Table, from: usize, n: usize) -> bool
    requires { Items (format_in table) n s.now from }
    ensures { AllNew (keys_at table s.now from) n result }
{
    if let Table::Alike(_) = table {
        return false;
    }
    let mut p = from;
    let mut marks: u64 = 0;
    for _ in 0..n {
        let m = mark_text(s, p);
        if marks & m == m {
            return false;
        }
        marks |= m;
        p = in_place::past_item(s, table, p);
    }
    true
}

// The first item that repeats one before it, or the number of items: each whose mark is not new is compared with
// all before it. Answers as `first_repeat` does: n where nothing repeats.
fn scan(s: &[u8], list: Listing) -> usize
    requires { Listed s.now list }
    ensures { FirstRepeat (keys_of s.now list) list.n result }
{
    let mut p = list.from;
    let mut marks: u64 = 0;
    for i in 0..list.n {
        let m = mark(s, list.table, p);
        if repeats_one(s, list, i, p, marks, m) {
            return i;
        }
        marks |= m;
        p = in_place::past_item(s, list.table, p);
    }
    list.n
}

// ---- a hash of an item's key: its package, then its name

fn mix(seed: u32, h: u64, w: u64) -> u64
    ensures { result ≡ mixed seed h w }
{
    let x = h ^ w;
    (x % 4294967296) * u64::from(seed) + x / 4294967296
}

// Two words at once: half of the hash and a word by the seed, and by another factor.
fn fold(seed: u32, h: u64, v: u32, w: u32) -> u64
    ensures { result ≡ folded seed h v w }
{
    let x = (h % 4294967296) ^ u64::from(v);
    let y = (h / 4294967296) ^ u64::from(w);
    let other = seed.wrapping_add(1013904242);
    (x * u64::from(seed)) ^ (y * u64::from(other))
}

// Spreads the last words over all bits.
fn ended(seed: u32, h: u64) -> u64
    ensures { result ≡ ended seed h }
{
    mix(seed, mix(seed, h, 0), 0)
}

// The hash is of words of 32 bits; `in_place` counts in usize.
fn word(s: &[u8], p: usize) -> u32
    requires { p + 4 ≤ length s.now }
    ensures { WordIs s.now p result }
{
    in_place::word_at(s, p) as u32
}

// Fewer than eight bytes: the first four and the last four, or else the first, the middle and the last.
fn hash_short(s: &[u8], start: usize, len: usize, seed: u32, h: u64) -> u64
    requires { (PartAt s.now start len) × (len < 8) }
    ensures { HashIs seed h (part s.now start len) result }
{
    if len == 0 {
        return h;
    }
    let end = start + len;
    if len < 4 {
        let v = u32::from(s[start]) + 256 * u32::from(s[start + len / 2]);
        return fold(seed, h, v, u32::from(s[end - 1]));
    }
    fold(seed, h, word(s, start), word(s, end - 4))
}

// Of the second lane. No two words are taken in by one factor, or a bit of one could make up for a bit of the other
// under many seeds.
fn second_seed(seed: u32) -> u32
    ensures { result ≡ second_seed seed }
{
    seed.wrapping_add(2773480762)
}

// Extends the two lanes by the eight bytes at p and the eight before end, and joins them.
fn join(s: &[u8], p: usize, end: usize, seed: u32, lane1: u64, lane2: u64) -> u64
    requires { (p + 8 ≤ end) × (end ≤ length s.now) }
    ensures { JoinIs seed lane1 lane2 s.now p end result }
{
    let first = fold(seed, lane1, word(s, p), word(s, p + 4));
    first ^ fold(second_seed(seed), lane2, word(s, end - 8), word(s, end - 4))
}

// More than sixteen bytes: sixteen at a time in two lanes, which do not wait for each other, and then the last sixteen.
fn hash_long(s: &[u8], start: usize, len: usize, seed: u32, h: u64) -> u64
    requires { (PartAt s.now start len) × (16 < len) }
    ensures { HashIs seed h (part s.now start len) result }
{
    let second = second_seed(seed);
    let end = start + len;
    let mut lane1 = h;
    let mut lane2 = h;
    for i in 0..(len - 1) / 16 {
        let p = start + 16 * i;
        lane1 = fold(seed, lane1, word(s, p), word(s, p + 4));
        lane2 = fold(second, lane2, word(s, p + 8), word(s, p + 12));
    }
    join(s, end - 16, end, seed, lane1, lane2)
}

// Extends the hash h by the len bytes at start.
fn hash_bytes(s: &[u8], start: usize, len: usize, seed: u32, h: u64) -> u64
    requires { PartAt s.now start len }
    ensures { HashIs seed h (part s.now start len) result }
{
    if len < 8 {
        return hash_short(s, start, len, seed, h);
    }
    if 16 < len {
        return hash_long(s, start, len, seed, h);
    }
    join(s, start, start + len, seed, h, h)
}

// Extends the hash h by the text at p. Its length goes in first, times the seed: else ("a", "bc") and ("ab", "c")
// collide, and two lanes that start from known values could be made to cancel out under every seed.
fn hash_text(s: &[u8], p: usize, seed: u32, h: u64) -> u64
    requires { TextAt s.now p }
    ensures { TextHash seed h s.now p result }
{
    let n = in_place::word_at(s, p);
    hash_bytes(s, p + 4, n, seed, mix(seed, h, n as u64))
}

// Extends the hash h, of the package, by the name at p.
fn hash_name(s: &[u8], p: usize, seed: u32, h: u64) -> u64
    requires { TextAt s.now p }
    ensures { EndedHash seed h s.now p result }
{
    ended(seed, hash_text(s, p, seed, h))
}

// Of the runtime struct's field at p.
fn hash_package(s: &[u8], p: usize, seed: u32) -> u64
    requires { Placed runtime_field s.now p }
    ensures { PackageHash seed s.now p result }
{
    hash_text(s, in_place::package_at(s, p), seed, 0)
}

// The hash after the character at a place, and the place past it.
#[derive(Clone, Copy)]
struct Taken {
    hash: u64,
    at: usize,
}

// Where a letter may be: base letter and mark are three bytes.
fn take_letter(s: &[u8], at: usize, end: usize, seed: u32, hash: u64) -> Taken
    requires { Streams s.now at end }
    ensures { TakenIn seed s.now at end hash result }
{
    let Some(letter) = folding::fold_at(s, at, end) else {
        return Taken {
            hash: mix(seed, hash, u64::from(s[at])),
            at: at + 1,
        };
    };
    let x = mix(seed, hash, u64::from(letter.base));
    let y = mix(seed, x, 204);
    Taken {
        hash: mix(seed, y, u64::from(letter.mark)),
        at: at + 2,
    }
}

// Most bytes open no letter, and this test of them is compiled into the loop.
fn take_in(s: &[u8], at: usize, end: usize, seed: u32, hash: u64) -> Taken
    requires { Streams s.now at end }
    ensures { TakenIn seed s.now at end hash result }
{
    if folding::opens(s[at]) {
        return take_letter(s, at, end, seed, hash);
    }
    Taken {
        hash: mix(seed, hash, u64::from(s[at])),
        at: at + 1,
    }
}

// The hash of the text at p as if its letters were decomposed: byte by byte, since a letter moves all that come after it.
// Inlined, since its callers do little else.
#[inline(always)]
fn hash_folded(s: &[u8], p: usize, seed: u32) -> u64
    requires { TextAt s.now p }
    ensures { FoldedHash seed s.now p result }
{
    let n = in_place::word_at(s, p);
    let end = p + 4 + n;
    let mut at = p + 4;
    let mut hash = u64::from(seed);
    // A step takes one byte or two, which no `for` counts.
    while at < end {
        let x = take_in(s, at, end, seed, hash);
        hash = x.hash;
        at = x.at;
    }
    ended(seed, hash)
}

// A `match`, as the arms are calls of different contracts: a closure's type would have to say each.
fn hash_key(s: &[u8], table: Table, p: usize, seed: u32) -> u64
    requires { Placed (format_in table) s.now p }
    ensures { KeyHash seed table s.now p result }
{
    match table {
        Table::Identities => hash_name(s, p, seed, hash_package(s, p, seed)),
        Table::Alike(_) => hash_folded(s, p, seed),
        _ => hash_name(s, p, seed, 0),
    }
}

// ---- filters: a hash that was entered has left six bits in one of the words

fn mask(h: u64) -> u64
    ensures { result ≡ mask_of h }
{
    (1 << (h / 1048576 % 64))
        | (1 << (h / 4294967296 % 64))
        | (1 << (h / 274877906944 % 64))
        | (1 << (h / 17592186044416 % 64))
        | (1 << (h / 1125899906842624 % 64))
        | (1 << (h / 72057594037927936 % 64))
}

// Are some of h's bits not in the filter?
fn lacks(filter: &[u64], h: u64) -> bool
    requires { 0 < length filter.now }
    ensures { Lacks filter.now h result }
{
    let m = mask(h);
    let k = (h as usize) & (filter.len() - 1);
    filter[k] & m != m
}

// Enters h; true where some of its bits were not there before.
fn enter(filter: &mut [u64], h: u64) -> bool
    requires { 0 < length filter.old }
    ensures { Entered filter.old h filter.new result }
{
    let m = mask(h);
    let k = (h as usize) & (filter.len() - 1);
    let w = filter[k];
    filter[k] = w | m;
    w & m != m
}

impl Classes {
    // Is the class of h none of these?
    fn exclude(self, h: u64) -> bool
        ensures { Outside self h result }
    {
        // From the low 32 bits, which are evenly distributed; the high 32 are always below the seed.
        let class = h / 65536 % 65536;
        class < self.lo || self.hi <= class
    }
}

// ---- the last bytes of a name: read without a hash of all of it, they tell most items from all suspects

// Are the four bytes at p ASCII?
fn ascii(s: &[u8], p: usize) -> bool
    requires { p + 4 ≤ length s.now }
    ensures { result ≡ lows (part s.now p 4) }
{
    s[p..p + 4].iter().all(|b| *b < 128)
}

// The last four bytes of the text at p, where they are ASCII, so that folding leaves them; else 0.
fn tail(s: &[u8], p: usize) -> u32
    requires { TextAt s.now p }
    ensures { TextTail s.now p result }
{
    let n = in_place::word_at(s, p);
    if n < 4 {
        return 0;
    }
    let at = p + n;
    if ascii(s, at) { word(s, at) } else { 0 }
}

fn hash_tail(s: &[u8], p: usize, seed: u32) -> u64
    requires { TextAt s.now p }
    ensures { result ≡ tail_hash seed (text_at s.now p) }
{
    ended(seed, u64::from(tail(s, p)))
}

// Has no suspect the last bytes of the text at p? Not asked where every item is a suspect, which one word stands for.
fn skips(s: &[u8], p: usize, seed: u32, suspects: &[u64]) -> bool
    requires { (TextAt s.now p) × (0 < length suspects.now) }
    ensures { Lacks suspects.now (tail_hash seed (text_at s.now p)) result }
{
    suspects.len() != 1 && lacks(suspects, hash_tail(s, p, seed))
}

// ---- a pass over the items

// Does the item at p repeat one of the i before it? Considers only suspects of these classes. `left`: how many
// comparisons without a repeat this pass still tolerates.
fn probed(
    s: &[u8],
    list: Listing,
    i: usize,
    p: usize,
    classes: Classes,
    seed: u32,
    left: &mut usize,
    filter: &mut [u64],
    suspects: &[u64],
) -> Result<bool, GaveUp>
    requires { (Standing list.table s.now list.from i p)
        × (Filter (Sought classes list seed suspects.now) (key_hash list.table seed) (keys_of s.now list) i filter.old)
        × (0 < length suspects.now) }
    ensures { Probed (Sought classes list seed suspects.now) (key_hash list.table seed)
        (keys_of s.now list) i filter.new result }
{
    if skips(s, p, seed, suspects) {
        return Ok(false);
    }
    let h = hash_key(s, list.table, p, seed);
    if classes.exclude(h) || lacks(suspects, h) {
        return Ok(false);
    }
    if enter(filter, h) || exempt(s, list.table, p) {
        return Ok(false);
    }
    if *left == 0 {
        return Err(GaveUp);
    }
    if in_place::seen(s, list.table, list.from, i, p) {
        return Ok(true);
    }
    *left -= 1;
    Ok(false)
}

// The first repeat, of the suspects of these classes, by a filter that is empty yet; or n, as `first_repeat` answers.
fn pass(
    s: &[u8],
    list: Listing,
    classes: Classes,
    seed: u32,
    filter: &mut [u64],
    suspects: &[u64],
) -> Result<usize, GaveUp>
    requires { (Listed s.now list) × (0 < length filter.old) × (0 < length suspects.now) }
    ensures { PassedOr (Sought classes list seed suspects.now) (keys_of s.now list) list.n
        result }
{
    let mut left = IN_VAIN;
    let mut p = list.from;
    for i in 0..list.n {
        if probed(s, list, i, p, classes, seed, &mut left, filter, suspects)? {
            return Ok(i);
        }
        p = in_place::past_item(s, list.table, p);
    }
    Ok(list.n)
}

// Enters h, the hash of the item at p, if it is of these classes, and among the suspects, with the hash of the name's last
// bytes, if its bits were in the filter before.
fn note(
    s: &[u8],
    p: usize,
    classes: Classes,
    seed: u32,
    h: u64,
    filter: &mut [u64],
    suspects: &mut [u64],
)
    requires { (TextAt s.now p) × (0 < length filter.old) × (0 < length suspects.old) }
    ensures { Noted classes h (tail_hash seed (text_at s.now p)) filter.old filter.new
        suspects.old suspects.new }
{
    if classes.exclude(h) {
        return;
    }
    if enter(filter, h) {
        return;
    }
    enter(suspects, h);
    enter(suspects, hash_tail(s, p, seed));
}

// Finds the suspects among the items of these classes, by a filter and a set of suspects that are empty yet.
fn suspect(
    s: &[u8],
    list: Listing,
    classes: Classes,
    seed: u32,
    filter: &mut [u64],
    suspects: &mut [u64],
)
    requires { (Listed s.now list) × (0 < length filter.old) × (0 < length suspects.old) }
    ensures { Suspects classes (key_hash list.table seed) (tail_hash seed) (keys_of s.now list)
        list.n suspects.new }
{
    let mut p = list.from;
    for _ in 0..list.n {
        let h = hash_key(s, list.table, p, seed);
        note(s, p, classes, seed, h, filter, suspects);
        p = in_place::past_item(s, list.table, p);
    }
}

// ---- tables of each size

// The first repeat under this seed: one pass with a filter of WORDS words, each item being a suspect. Not inlined: the
// filter must stay out of the caller's frame.
#[inline(never)]
fn one_pass<const WORDS: usize>(s: &[u8], list: Listing, seed: u32) -> Result<usize, GaveUp>
    requires { (Listed s.now list) × (0 < WORDS) × (WORDS ≤ 16384) }
    ensures { FirstOr (keys_of s.now list) list.n result }
{
    let mut filter = [0u64; WORDS];
    let suspects = [u64::MAX; 1];
    pass(s, list, ALL_CLASSES, seed, &mut filter, &suspects)
}

// The first repeat of the items of these classes: a pass that finds the suspects, about one in thirty, and one that
// compares them. A filter that the second alone could rest on has room for an eighth of the items.
#[inline(never)]
fn two_passes(s: &[u8], list: Listing, classes: Classes, seed: u32) -> Result<usize, GaveUp>
    requires { Listed s.now list }
    ensures { PassedOr (ClassedBy classes (key_hash list.table seed)) (keys_of s.now list)
        list.n result }
{
    let mut filter = [0u64; 16384];
    let mut suspects = [0u64; 2048];
    suspect(s, list, classes, seed, &mut filter, &mut suspects);
    filter.fill(0);
    pass(s, list, classes, seed, &mut filter, &suspects)
}

// The first repeat under this seed, or n, as `first_repeat` answers: one pass, or two for each 196608 items.
fn under_seed(s: &[u8], list: Listing, seed: u32) -> Result<usize, GaveUp>
    requires { Listed s.now list }
    ensures { FirstOr (keys_of s.now list) list.n result }
{
    if list.n < MIDDLING {
        return one_pass::<1024>(s, list, seed);
    }
    if list.n < MANY {
        return one_pass::<16384>(s, list, seed);
    }
    let parts = list.n as u64 / CLASS + 1;
    let classes = 65536 / parts + 1;
    let mut first = list.n;
    for part in 0..parts {
        let lo = part * classes;
        first = two_passes(
            s,
            Listing { n: first, ..list },
            Classes {
                lo,
                hi: lo + classes,
            },
            seed,
        )?;
    }
    Ok(first)
}

// The next seed is a hash of the whole table, under a seed that no filter uses: names that collide under it cannot be
// chosen without changing it.
fn fresh_seed(s: &[u8], list: Listing, seed: u32) -> u32
    requires { Listed s.now list }
{
    let end = in_place::past_items(s, in_place::item_of(list.table), list.from, list.n);
    if end <= list.from {
        return seed;
    }
    let h = hash_bytes(s, list.from, end - list.from, 3266489917, u64::from(seed));
    2147483649 + (h / 65536 % 1073741824) as u32 * 2
}

// The first repeat where marks don't tell, or n, as `first_repeat` answers: of few items by comparing, else by filters.
// Names that were made to collide under one seed do not collide under the next. Not inlined: most tables need none of
// this.
#[inline(never)]
fn searched(s: &[u8], table: Table, from: usize, n: usize) -> usize
    requires { Items (format_in table) n s.now from }
    ensures { FirstRepeat (keys_at table s.now from) n result }
{
    let list = Listing { table, from, n };
    if n < FEW {
        return scan(s, list);
    }
    let mut seed = FIRST_SEED;
    for _ in 0..SEEDS {
        if let Ok(first) = under_seed(s, list, seed) {
            return first;
        }
        seed = fresh_seed(s, list, seed);
    }
    scan(s, list)
}

// The first of the n items from `from` on that repeats one before it, or n. A set of the library would need a heap.
// It is how many items come before that one, n of n where none repeats, as `partition_point` counts: each caller would
// turn an `Option` into that number.
pub fn first_repeat(s: &[u8], table: Table, from: usize, n: usize) -> usize
    requires { Items (format_in table) n s.now from }
    ensures { FirstRepeat (keys_at table s.now from) n result }
{
    if n < FEW && all_new(s, table, from, n) {
        return n;
    }
    searched(s, table, from, n)
}
