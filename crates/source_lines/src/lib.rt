// Which source line was that: the entry of a function's debug locations that an address belongs to, found where the
// locations stand in a pack that was read. The Rust's DebugInfo::span_at is a binary search; here entries need not be
// sorted.
// `as` stands between usize and u64, where Rust has no `From`.
#![tactic(auto)]

ghost use Rattle.std.specs.Prelude.{◌≡◌, ◌<◌};
ghost use Rattle.vob24.specs.Settings.{settings_of};
ghost use Rattle.vob24.specs.Grammar.{location};
ghost use Rattle.source.specs.Source as source;
ghost use Rattle.in_place.specs.Contract.{Placed, Past, Items};
ghost use Rattle.source_lines.specs.Contract.{location_list, best_of, BestIs, ListIs, FunctionsAt, LineFrom};

use packed::{location_at, past_numbers};
use reader::{Cursor, Kind, Refusal};
use vob24_data::Settings;

mod packed;

// The best entry so far, by its number from 0, with its address.
#[derive(Clone, Copy)]
struct Best {
    entry: usize,
    pc: u64,
}

// With the entry numbered i, from 0, which has this address.
fn better(best: Option<Best>, i: usize, pc: u64, address: u64) -> Option<Best>
    ensures { best_of result ≡ source.better address (best_of best) i pc }
{
    let least = best.map_or(0, |b| b.pc);
    if (least <= pc) & (pc <= address) {
        return Some(Best { entry: i, pc });
    }
    best
}

// The best of n locations from `from` on.
fn best_of(s: &[u8], from: usize, n: usize, address: u64) -> Option<Best>
    requires { Items location n s.now from }
    ensures { BestIs s.now from n address result }
{
    let mut best = None;
    let mut at = from;
    for i in 0..n {
        let here = location_at(s, at);
        best = better(best, i, here.value, address);
        at = here.next;
    }
    best
}

// The place past a list of locations, each of which is five packed numbers. No setting is read here: `set` says under
// which settings it was.
fn past_list(s: &[u8], set: &Settings, p: usize) -> usize
    requires { Placed (location_list (settings_of set.now)) s.now p }
    ensures { Past (location_list (settings_of set.now)) s.now p result }
{
    let n = in_place::word_at(s, p);
    past_numbers(s, p + 4, n * 5)
}

// The place of the list numbered k, from 0, of n lists from `from` on.
fn list_at(s: &[u8], set: &Settings, from: usize, n: usize, k: usize) -> usize
    requires { Items (location_list (settings_of set.now)) n s.now from × (k < n) }
    ensures { ListIs (settings_of set.now) s.now from k result }
{
    let mut p = from;
    for _ in 0..k {
        p = past_list(s, set, p);
    }
    p
}

// The number of the entry for an address of a function, if it has one, among the lists of locations that a count at `at` says; 28 shows where the
// reading ended.
pub fn line_from(
    s: &[u8],
    set: &Settings,
    at: usize,
    function: u64,
    address: u32,
    end: Cursor,
) -> Result<Option<usize>, Refusal>
    requires { FunctionsAt (settings_of set.now) s.now at }
    ensures { LineFrom (settings_of set.now) s.now at function address end result }
{
    let n = in_place::word_at(s, at);
    if n as u64 <= function {
        return Err(Refusal {
            kind: Kind::NoSuchFunction,
            context: 0,
            detail1: function,
            detail2: n as u64,
            place: end.place,
            left: end.left,
        });
    }
    let list = list_at(s, set, at + 4, n, function as usize);
    let count = in_place::word_at(s, list);
    let best = best_of(s, list + 4, count, u64::from(address));
    Ok(best.map(|b| b.entry))
}
