// The artifact of a name: the first in the file whose name has exactly these bytes, found in the pack itself.
// The Rust's Module::artifact is a binary search; document 01 asks for the first.
#![tactic(auto)]

ghost use Rattle.std.specs.Prelude.{◌+◌, ◌≤◌, length};
ghost use Rattle.vob24.specs.Settings.{settings_of};
ghost use Rattle.vob24.specs.Grammar.{artifact};
ghost use Rattle.in_place.specs.Contract.{Items};
ghost use Rattle.lookup.specs.Look.{IsName, Looks, ArtifactsAt, LooksFrom};

use reader::{Cursor, Kind, Refusal, Span};
use vob24_data::Settings;

// Are the n bytes at p this name? A function of its own, as its contract says of the name what == says of slices.
fn is_name(s: &[u8], p: usize, n: usize, name: &[u8]) -> bool
    requires { p + n ≤ length s.now }
    ensures { IsName s.now p n name.now result }
{
    &s[p..p + n] == name
}

// The payload of the first of n artifacts from `from` on that has this name; 27 shows where the reading ended. No
// setting is read here: `set` says under which limits the artifacts were read.
fn look(
    s: &[u8],
    set: &Settings,
    from: usize,
    n: usize,
    name: &[u8],
    end: Cursor,
) -> Result<Span, Refusal>
    requires { Items (artifact (settings_of set.now)) n s.now from }
    ensures { Looks (settings_of set.now) s.now from n name.now end result }
{
    let mut at = from;
    for _ in 0..n {
        let named = in_place::word_at(s, at);
        // The version is between the name and the payload's length.
        let payload = at + 4 + named + 4;
        let length = in_place::word_at(s, payload);
        let start = payload + 4;
        if is_name(s, at + 4, named, name) {
            return Ok(Span { start, length });
        }
        at = start + length;
    }
    Err(Refusal {
        kind: Kind::NoSuchArtifact,
        context: 0,
        detail1: 0,
        detail2: 0,
        place: end.place,
        left: end.left,
    })
}

// The same among the artifacts that a count at `at` says.
pub fn look_from(
    s: &[u8],
    set: &Settings,
    at: usize,
    name: &[u8],
    end: Cursor,
) -> Result<Span, Refusal>
    requires { ArtifactsAt (settings_of set.now) s.now at }
    ensures { LooksFrom (settings_of set.now) s.now at name.now end result }
{
    let n = in_place::word_at(s, at);
    look(s, set, at + 4, n, name, end)
}
