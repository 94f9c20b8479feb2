// Questions on the transfer words of a function (20): is each a kind and an id?
// Ports the checks of transfer types of serialize.rs.
// `as` stands between usize and u64, where Rust has no `From`.
#![tactic(auto)]

ghost use Rattle.std.specs.Prelude.{◌≡◌, ◌<◌, [], map, Err};
ghost use Rattle.vob24.specs.Leaves.{packed_ok};
ghost use Rattle.vob24.specs.Questions.{transfer_words};
ghost use Rattle.reader.specs.declared.kinds.Kind.TheVariants.{InvalidFunctionMetadata};
ghost use Rattle.vob24.specs.Grammar.{transfer as transfer_format, transferred};
ghost use Rattle.reader.specs.Numbers.{part_number};
ghost use Rattle.reader.specs.Contract.{refusal, Asks};
ghost use Rattle.in_place.specs.Walk.{value_at, items_at};
ghost use Rattle.in_place.specs.Contract.{over, Items, ListBehind, ListAsked};
ghost use Rattle.transfers.specs.Words.{transfer_asks, transfer_over, TransferAt};

use reader::{Cursor, Kind, Part, Refusal, Step};

// Is it a kind in the low byte, and an id above it?
fn packed_ok(word: usize) -> bool
    ensures { result ≡ packed_ok word }
{
    word % 256 <= 24 && word / 256 < 0xffffff
}

fn bad_word(c: Cursor, context: u64, i: usize, word: usize) -> Step
    ensures { result ≡ Err (refusal InvalidFunctionMetadata context i word c) }
{
    Err(Refusal {
        kind: Kind::InvalidFunctionMetadata,
        context,
        detail1: i as u64,
        detail2: word as u64,
        place: c.place,
        left: c.left,
    })
}

// The entry numbered i, at p: its meta word, then its rttid word.
fn transfer(s: &[u8], context: u64, i: usize, p: usize, c: Cursor) -> Step
    requires { TransferAt s.now context p }
    ensures { Asks (transfer_asks context i (value_at transfer_format s.now p)) c result }
{
    let meta = in_place::word_at(s, p);
    if !packed_ok(meta) {
        return bad_word(c, context, i, meta);
    }
    let rttid = in_place::word_at(s, p + 4);
    if !packed_ok(rttid) {
        return bad_word(c, context + 1, i, rttid);
    }
    Ok(c)
}

fn transfers(s: &[u8], context: u64, from: usize, n: usize, c: Cursor) -> Step
    requires { (Items transfer_format n s.now from) × (context < 4) }
    ensures { Asks (over (transfer_over context) [] (items_at transfer_format n s.now from)) c result }
{
    let mut p = from;
    let mut here = c;
    for i in 0..n {
        here = transfer(s, context, i, p, here)?;
        p += 10;
    }
    Ok(here)
}

// The words of the entries whose list was read at r, asked at r1; the part is that of the meta word.
pub fn transfer_words(s: &[u8], part: Part, r: Step, r1: Step) -> Step
    requires { (ListBehind transfer_format s.now r r1) × (part_number part < 4) }
    ensures { ListAsked transfer_format (λ vs. transfer_words (part_number part) 0 (map transferred vs)) s.now r
        r1 result }
{
    let d = r1?;
    let c = r?;
    let place = c.place;
    let n = in_place::word_at(s, place);
    transfers(s, u64::from(part), place + 4, n, d)
}
