// The places past parts of a pack that have no table.
ghost use Rattle.vob24.specs.Settings.{settings_of};
ghost use Rattle.vob24.specs.Grammar.{section, itabs};
ghost use Rattle.in_place.specs.Contract.{Placed, Past};
ghost use Rattle.alike_names.specs.Tables.{WordsAt, WordsEnd, variant, OtherAt};

use in_place::Item;
use vob24_data::Settings;

// The place past a list whose items have four bytes each.
pub(crate) fn past_words(s: &[u8], p: usize) -> usize
    requires { WordsAt s.now p }
    ensures { WordsEnd s.now p result }
{
    let n = in_place::word_at(s, p);
    p + 4 + 4 * n
}

// The place past the itabs.
pub(crate) fn past_itabs(s: &[u8], set: &Settings, p: usize) -> usize
    requires { Placed (section (settings_of set.now) 0 itabs) s.now p }
    ensures { Past (section (settings_of set.now) 0 itabs) s.now p result }
{
    let n = in_place::word_at(s, p);
    let mut at = p + 4;
    for _ in 0..n {
        at = past_words(s, at + 4);
    }
    at
}

// The place past a runtime type other than an interface, from behind its tag. In order of tags: Basic, Named, Pointer,
// Array, Slice, Map, Chan, Func, Struct, Tuple, Port; an Island has no bytes. A `match`, as the arms are calls of
// different contracts: a closure's type would have to say each.
pub(crate) fn past_variant(s: &[u8], set: &Settings, tag: u8, p: usize) -> usize
    requires { OtherAt (settings_of set.now) tag s.now p }
    ensures { Past (variant (settings_of set.now) tag) s.now p result }
{
    match tag {
        0 => p + 1,
        1 => p + 8,
        2 => p + 4,
        3 => p + 12,
        4 => p + 4,
        5 => p + 8,
        6 => p + 5,
        7 => {
            let results = past_words(s, p + 1);
            past_words(s, results)
        }
        8 => {
            let n = in_place::word_at(s, p + 4);
            in_place::past_items(s, Item::RuntimeField, p + 8, n)
        }
        10 => past_words(s, p),
        11 => p + 5,
        _ => p,
    }
}
