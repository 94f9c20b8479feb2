// UTF-8: are these bytes well-formed, and how many characters are they?
// It ports what Rust's `String::from_utf8` asks in ByteReader's `read_string`, as Table 3-7 of the Unicode Standard has
// it. The plain scan goes character by character. A faster test holds each byte against the three before it, many at
// once (crate `utf8_parts`). It only accepts: what it does not accept goes to the plain scan, so that every refusal
// comes from there.
#![tactic(auto)]

ghost use Rattle.std.specs.Prelude.{◌≡◌, true, ◌+◌, ◌≤◌, ◌<◌, length, take, drop};
ghost use Rattle.vob24.specs.Utf8 as Utf8;
ghost use Rattle.utf8_parts.specs.Parts.{Ascii};
ghost use Rattle.utf8.specs.Answers.{next_of, scan_of, Starts, Scans, Tries, TriesAt};

// What may come after a byte: how many more of its sequence, and the next of them from lo to hi.
#[derive(Clone, Copy)]
struct Next {
    more: u8,
    lo: u8,
    hi: u8,
}

// Whole characters up to a place, and their count.
#[derive(Clone, Copy)]
struct Upto {
    place: usize,
    characters: usize,
}

// ---- the plain scan

// The rows of the table, by the first byte.
fn lead(b: u8) -> Option<Next>
    ensures { next_of result ≡ Utf8.lead b }
{
    let (more, lo, hi) = match b {
        0..=0x7f => (0, 0x80, 0xbf),
        0xc2..=0xdf => (1, 0x80, 0xbf),
        0xe0 => (2, 0xa0, 0xbf),
        0xe1..=0xec => (2, 0x80, 0xbf),
        0xed => (2, 0x80, 0x9f),
        0xee..=0xef => (2, 0x80, 0xbf),
        0xf0 => (3, 0x90, 0xbf),
        0xf1..=0xf3 => (3, 0x80, 0xbf),
        0xf4 => (3, 0x80, 0x8f),
        _ => return None,
    };
    Some(Next { more, lo, hi })
}

// A character more, by its row of the table.
fn char(s: &[u8], at: Upto, to: usize) -> Option<Upto>
    requires { (at.place < to) × (to ≤ length s.now) × (at.characters ≤ at.place) }
    ensures { Scans s.now to at.characters at.place (at.place + 1) result }
{
    let Next {
        more,
        mut lo,
        mut hi,
    } = lead(s[at.place])?;
    let first = at.place + 1;
    let next = first + usize::from(more);
    for i in first..next {
        if to <= i || !(lo..=hi).contains(&s[i]) {
            return None;
        }
        lo = 0x80;
        hi = 0xbf;
    }
    Some(Upto {
        place: next,
        characters: at.characters + 1,
    })
}

// The plain scan, character by character.
fn scan(t: &[u8]) -> Option<usize>
    ensures { scan_of result ≡ Utf8.scan t.now }
{
    let to = t.len();
    let mut at = Upto {
        place: 0,
        characters: 0,
    };
    // Not a `for`: a character says where the next one starts.
    while at.place < to {
        at = char(t, at, to)?;
    }
    Some(at.characters)
}

// ---- texts

// So many bytes of a long text are asked first whether they are ASCII.
const HEAD: usize = 4096;

// Can a character start at i? It can where the bytes before it ask for no more.
fn starts(s: &[u8], i: usize) -> bool
    requires { (3 ≤ i) × (i ≤ length s.now) }
    ensures { result ≡ true → Starts s.now i }
{
    s[i - 1] < 0xc0 && s[i - 2] < 0xe0 && s[i - 3] < 0xf0
}

// The characters up to `end`: part by part, and the rest as the last of 16 bytes.
fn parts(s: &[u8], start: Upto, end: usize) -> Option<usize>
    requires { ((3 ≤ start.place) × (19 ≤ end) × (start.place ≤ end) × (end ≤ length s.now)
        × (start.characters ≤ start.place)) × (Starts s.now start.place × Starts s.now end) }
    ensures { TriesAt s.now end start.characters start.place result }
{
    let mut at = start;
    // Not a `for`: a part says how wide it is.
    while 16 <= end - at.place {
        let part = utf8_parts::next_part(s, at.place, end);
        at = Upto {
            place: at.place + part.width,
            characters: at.characters + part.characters()?,
        };
    }
    let rest = utf8_parts::sixteen(s, end, end - at.place);
    Some(at.characters + rest.characters()?)
}

// The bytes before a text are its length, which may look like lead bytes: then the plain scan reads the first
// characters, up to a place where the bytes before ask for no more.
fn try_at(s: &[u8], start: usize, end: usize) -> Option<usize>
    requires { (start ≤ end) × (end ≤ length s.now) }
    ensures { TriesAt s.now end 0 start result }
{
    if start < 3 || end < 19 || !starts(s, end) {
        return None;
    }
    let mut at = Upto {
        place: start,
        characters: 0,
    };
    // Not a `for`: a character says where the next one starts.
    while at.place < end {
        if starts(s, at.place) {
            return parts(s, at, end);
        }
        at = char(s, at, end)?;
    }
    None
}

// Are the bytes all below 128? They are joined, with no branch, so that this is compiled to vector code.
fn ascii(s: &[u8]) -> bool
    ensures { result ≡ true → Ascii s.now 0 (length s.now) }
{
    s.iter().fold(0u8, |m, b| m | *b) < 128
}

// A text of at most 32 bytes, with no loop over its length: up to 16 bytes as the last of 16; more only where they are
// ASCII, by the first 16 and the last 16, which together are all.
pub fn try_short(s: &[u8], start: usize, size: usize) -> Option<usize>
    requires { start + size ≤ length s.now }
    ensures { Tries (take size (drop start s.now)) result }
{
    let end = start + size;
    if 16 < size {
        if 32 < size {
            return None;
        }
        let low = ascii(&s[start..start + 16]) & ascii(&s[end - 16..end]);
        return low.then_some(size);
    }
    if end < 19 {
        return (size == 0).then_some(0);
    }
    if utf8_parts::low_sixteen(s, end, size) {
        return Some(size);
    }
    if !starts(s, start) || !starts(s, end) {
        return None;
    }
    utf8_parts::sixteen(s, end, size).characters()
}

// Are the bytes all below 128? A long text is asked for its first bytes first: one with accents mostly shows them
// there, and the rest of it is not looked at here.
fn plain(s: &[u8]) -> bool
    ensures { result ≡ true → Ascii s.now 0 (length s.now) }
{
    if s.len() <= HEAD {
        return ascii(s);
    }
    let (head, rest) = s.split_at(HEAD);
    ascii(head) && ascii(rest)
}

// The text of `size` bytes at start. ASCII is tested first: the cheapest for a text without accents, and one with some
// loses little.
pub fn scan_at(s: &[u8], start: usize, size: usize) -> Option<usize>
    requires { start + size ≤ length s.now }
    ensures { scan_of result ≡ Utf8.scan (take size (drop start s.now)) }
{
    let end = start + size;
    let text = &s[start..end];
    if 32 < size && plain(text) {
        return Some(size);
    }
    try_at(s, start, end).or_else(|| scan(text))
}
