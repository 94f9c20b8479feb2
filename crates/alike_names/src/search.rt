// The pair of one table: the first item whose name is alike to one before it, found by the search for repeats over folded
// names.
ghost use Rattle.alike_names.specs.Contract.{TableAt, TableWalk};
ghost use Rattle.alike_names.specs.Search.{ItemsWithout, Repeats, PartnerIs, NearerIs};
ghost use Rattle.in_place.specs.Items.{format_of};
ghost use Rattle.in_place.specs.Contract.{Items, TwoPlaced};

use crate::{AlikeNames, Walk};
use in_place::{Item, Table};
use reader::Span;
use std::ops::ControlFlow;

// The place past the items, where no name has a byte of the range that was asked for.
fn items_without(s: &[u8], item: Item, from: usize, n: usize, low: u8, high: u8) -> Option<usize>
    requires { Items (format_of item) n s.now from }
    ensures { ItemsWithout item n low high s.now from result }
{
    let mut p = from;
    for _ in 0..n {
        let len = in_place::word_at(s, p);
        if !folding::without(s, p + 4, len, low, high) {
            return None;
        }
        p = in_place::past(s, item, p);
    }
    Some(p)
}

// The last of the first i items from `from` on whose name is alike to that of item i, which stands at p.
fn partner(s: &[u8], item: Item, from: usize, i: usize, p: usize) -> usize
    requires { Repeats item s.now from i p }
    ensures { PartnerIs item s.now from i p result }
{
    let mut best = p;
    let mut at = from;
    for _ in 0..i {
        best = nearer(s, item, p, at, best);
        at = in_place::past(s, item, at);
    }
    best
}

// The place a where the name there is alike to that at p, else the best so far.
fn nearer(s: &[u8], item: Item, p: usize, a: usize, best: usize) -> usize
    requires { TwoPlaced (format_of item) s.now p a }
    ensures { NearerIs item s.now p a best result }
{
    if in_place::same_key(s, Table::Alike(item), p, a) {
        return a;
    }
    best
}

// The pair of the n items from `from` on. Where no name has a byte that opens a letter to decompose, or none has one that
// opens a mark, names that were read as different are not alike, and there is no search.
pub(crate) fn table(s: &[u8], item: Item, from: usize, n: usize) -> Walk
    requires { TableAt item n s.now from }
    ensures { TableWalk item n s.now from result }
{
    if let Some(end) = items_without(s, item, from, n, 195, 197) {
        return ControlFlow::Continue(end);
    }
    if let Some(end) = items_without(s, item, from, n, 204, 204) {
        return ControlFlow::Continue(end);
    }
    let i = repeat_search::first_repeat(s, Table::Alike(item), from, n);
    if n <= i {
        return ControlFlow::Continue(in_place::past_items(s, item, from, n));
    }
    let p = in_place::past_items(s, item, from, i);
    let a = partner(s, item, from, i, p);
    ControlFlow::Break(AlikeNames {
        earlier: Span {
            start: a + 4,
            length: in_place::word_at(s, a),
        },
        later: Span {
            start: p + 4,
            length: in_place::word_at(s, p),
        },
    })
}
