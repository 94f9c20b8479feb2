// A list of slot types, which many records have: structs, globals, functions, instructions' metadata.
// Ports `read_vec(read_slot_type)` of serialize.rs.
// Most lists have one item or two: a list of at most four is tested whole, and then kept, without a loop. Where a test
// fails, nothing is kept yet, and the answer is that of `number_any`, which reads any list and makes every refusal.
// `as` stands between usize and u64, where Rust has no `From`.
#![tactic(auto)]

ghost use Rattle.format.specs.Format.{counted};
ghost use Rattle.vob24.specs.Settings.{settings_of};
ghost use Rattle.vob24.specs.Grammar.{slot_types};
ghost use Rattle.reader.specs.Contract.{cursor_at, Ready, ReadyAt, Reader, NumberOf};
ghost use Rattle.slots.specs.Short.{Keeps};

use fields::SlotType;
use reader::{Cursor, Read, Step};
use vob24_data::{Settings, Size};

// A list of any length. One call, under the list's contract, which the two short ways go on to.
fn number_any(s: &[u8], set: &Settings, c: Cursor, tape: &mut [u32]) -> Read<u64>
    requires { ReadyAt s.now c }
    ensures { NumberOf (slot_types (settings_of set.now)) counted s.now c
        tape.old result tape.new }
{
    lists::number_list(s, set, c, Size::SlotType, &SlotType, tape)
}

// Keeps the words of a list of one to four valid slot types at `place`, and returns its count; 0 for any other list, as an
// Option takes 1 to 4 instructions more a list. The four blocks stay, as one function of a const count takes 3 to 23 more.
fn short(s: &[u8], place: usize, at: usize, tape: &mut [u32]) -> usize
    requires { ReadyAt s.now (cursor_at place 0 at) }
    ensures { Keeps s.now place at tape.old result tape.new }
{
    if s.len() - place < 8 {
        return 0;
    }
    let count = reader::le4([s[place], s[place + 1], s[place + 2], s[place + 3]]);
    let first = s[place + 4];
    if 5 < first {
        return 0;
    }
    if count == 1 {
        reader::put(tape, at, 1);
        reader::put(tape, at + 1, u32::from(first));
        return 1;
    }
    let second = s[place + 5];
    if 5 < second {
        return 0;
    }
    if count == 2 {
        reader::put(tape, at, 2);
        reader::put(tape, at + 1, u32::from(first));
        reader::put(tape, at + 2, u32::from(second));
        return 2;
    }
    let third = s[place + 6];
    if 5 < third {
        return 0;
    }
    if count == 3 {
        reader::put(tape, at, 3);
        reader::put(tape, at + 1, u32::from(first));
        reader::put(tape, at + 2, u32::from(second));
        reader::put(tape, at + 3, u32::from(third));
        return 3;
    }
    let fourth = s[place + 7];
    if 5 < fourth {
        return 0;
    }
    if count == 4 {
        reader::put(tape, at, 4);
        reader::put(tape, at + 1, u32::from(first));
        reader::put(tape, at + 2, u32::from(second));
        reader::put(tape, at + 3, u32::from(third));
        reader::put(tape, at + 4, u32::from(fourth));
        return 4;
    }
    0
}

// Also returns the count. Where four can be paid, the short way asks nothing of the budget. `number_any` gets copies: a
// value whose address escapes is spilled on the short way too.
pub fn number_slot_types(s: &[u8], set: &Settings, c: Cursor, tape: &mut [u32]) -> Read<u64>
    requires { ReadyAt s.now c }
    ensures { NumberOf (slot_types (settings_of set.now)) counted s.now c
        tape.old result tape.new }
{
    let size = Size::SlotType.bytes(set);
    let left = c.left;
    if 4 * size <= left {
        let place = c.place;
        let at = c.at;
        let n = short(s, place, at, tape);
        if 0 < n {
            return Ok((
                n as u64,
                Cursor {
                    place: place + 4 + n,
                    left: left - (n as u64) * size,
                    at: at + 1 + n,
                },
            ));
        }
    }
    let pack = s;
    let start = c;
    number_any(pack, set, start, tape)
}

// The short way is here a second time: with `number_any` called at one place only, the compiler would inline it there,
// and the caller would be too long to be inlined itself.
pub fn slot_types(s: &[u8], set: &Settings, r: Step, tape: &mut [u32]) -> Step
    requires { Ready s.now r }
    ensures { Reader (slot_types (settings_of set.now)) s.now r tape.old result
        tape.new }
{
    let c = r?;
    let size = Size::SlotType.bytes(set);
    let left = c.left;
    if 4 * size <= left {
        let place = c.place;
        let at = c.at;
        let n = short(s, place, at, tape);
        if 0 < n {
            return Ok(Cursor {
                place: place + 4 + n,
                left: left - (n as u64) * size,
                at: at + 1 + n,
            });
        }
    }
    let pack = s;
    let start = c;
    let (_, d) = number_any(pack, set, start, tape)?;
    Ok(d)
}
