// The debug information: source files, the locations of each function's code, and the sources of inlined code.
// Ports what Module::deserialize and read_inline_sources of serialize.rs read into the records of debug_info.rs and
// debug_info/inline.rs.
// `as` stands where a number is known to fit a narrower type: a `TryFrom` would have a case that no caller meets.
#![tactic(auto)]

ghost use Rattle.std.specs.Prelude.{Bool, IfSome, false, ◌≡◌, ◌+◌, ◌*◌, ◌%◌, ◌≤◌, ◌<◌};
ghost use Rattle.format.specs.Format.{times};
ghost use Rattle.vob24.specs.Settings.{settings_of};
ghost use Rattle.vob24.specs.Leaves.{optional, source_u32, str};
ghost use Rattle.reader.specs.Contract.{Ready, ReadyAt, Reader, NumberOf};
ghost use Rattle.lists.specs.Runs.{Runs};
ghost use Rattle.debug_info.specs.Packs.{Packs};
ghost use Rattle.debug_info.specs.DebugInfo.{file_list, location_list, function_locations, span_format, frame_format, frame_list, entry_format, function_format, entries_of, function_list, inline_format};

use fields::{SourceU32, U32};
use lists::{Entry, Rest};
use reader::{Context, Cursor, Read, Step};
use vob24_data::{Settings, Size};

struct File;

impl Entry for File {
    ghost format = { λ _. str };

    ghost again = { λ _. false };

    fn read(&self, s: &[u8], r: Step, tape: &mut [u32]) -> Step {
        fields::field_str(s, r, tape)
    }
}

// One call, under the section's name and contract: its entry stays private.
pub fn files(s: &[u8], set: &Settings, r: Step, tape: &mut [u32]) -> Step
    requires { Ready s.now r }
    ensures { Reader (file_list (settings_of set.now)) s.now r tape.old result
        tape.new }
{
    lists::read_list(s, set, r, Size::String, &File, tape)
}

// ---- packed numbers

// A packed number and its length.
#[derive(Clone, Copy)]
struct Short {
    value: u32,
    bytes: usize,
}

// The seven bits of a byte, below those of the bytes after it.
fn gathered(byte: u64, after: u32) -> u32
    requires { after < 33554432 }
    ensures { result ≡ byte % 128 + 128 * after }
{
    (byte & 0x7f) as u32 | after << 7
}

// The packed number that begins the eight bytes of x, where it has at most four: no fifth byte, so no test of one.
fn short_number(x: u64) -> Option<Short>
    ensures { IfSome result (λ q. (q.bytes ≤ 4) × Packs 4 0 x q.value q.bytes) }
{
    let a = x & 0xff;
    if a < 0x80 {
        return Some(Short {
            value: a as u32,
            bytes: 1,
        });
    }
    let y = x >> 8;
    let b = y & 0xff;
    if b < 0x80 {
        if b == 0 {
            return None;
        }
        return Some(Short {
            value: gathered(a, b as u32),
            bytes: 2,
        });
    }
    let z = y >> 8;
    let c = z & 0xff;
    if c < 0x80 {
        if c == 0 {
            return None;
        }
        return Some(Short {
            value: gathered(a, gathered(b, c as u32)),
            bytes: 3,
        });
    }
    let d = z >> 8 & 0xff;
    if d < 0x80 {
        if d == 0 {
            return None;
        }
        return Some(Short {
            value: gathered(a, gathered(b, gathered(c, d as u32))),
            bytes: 4,
        });
    }
    None
}

// From the next eight bytes: eight numbers of one byte each; else one of 1 to 4 bytes and, if it took one byte, a
// second; else none. Where eight bytes are not there it reads none, and the leaf asks for its bytes.
fn short_numbers(s: &[u8], c: Cursor, n: u64, tape: &mut [u32]) -> Rest
    requires { ReadyAt s.now c × (0 < n) }
    ensures { Runs source_u32 s.now c tape.old n result tape.new × (result.items ≤ n) }
{
    let Ok((x, _)) = reader::read_u64(s, c) else {
        return Rest { items: n, at: c };
    };
    let place = c.place;
    let at = c.at;
    if 8 <= n {
        if x & 0x8080_8080_8080_8080 == 0 {
            if tape.len() <= at {
                return lists::remaining(c, n, 8, 8, 8);
            }
            if 8 <= tape.len() - at {
                lists::copy_bytes(s, place, 8, tape, at);
                return lists::remaining(c, n, 8, 8, 8);
            }
        }
    }
    let Some(first) = short_number(x) else {
        return Rest { items: n, at: c };
    };
    reader::put(tape, at, first.value);
    if first.bytes == 1 {
        if 2 <= n {
            if let Some(second) = short_number(x >> 8) {
                reader::put(tape, at + 1, second.value);
                return lists::remaining(c, n, 2, 1 + second.bytes, 2);
            }
        }
    }
    lists::remaining(c, n, 1, first.bytes, 1)
}

// Short numbers, one after the other, as many as there are. A step takes one, two or eight, so that no range counts them.
fn short_run(s: &[u8], c: Cursor, n: u64, tape: &mut [u32]) -> Rest
    requires { ReadyAt s.now c }
    ensures { Runs source_u32 s.now c tape.old n result tape.new × (result.items ≤ n) }
{
    let mut k = n;
    let mut here = c;
    while 0 < k {
        let rest = short_numbers(s, here, k, tape);
        if rest.items == k {
            return rest;
        }
        here = rest.at;
        k = rest.items;
    }
    Rest { items: k, at: here }
}

// n packed numbers, one after the other: short ones as runs, any other by its leaf. A run takes any number of them, so
// that no range counts the steps.
fn source_numbers(s: &[u8], c: Cursor, n: u64, tape: &mut [u32]) -> Step
    requires { ReadyAt s.now c }
    ensures { Reader (times source_u32 n) s.now (Ok c) tape.old result tape.new }
{
    let first = short_run(s, c, n, tape);
    let mut k = first.items;
    let mut here = first.at;
    while 0 < k {
        let d = fields::field::<SourceU32>(s, Ok(here), tape)?;
        let run = short_run(s, d, k - 1, tape);
        here = run.at;
        k = run.items;
    }
    Ok(here)
}

// One function's: pc, file_id, line, col and len of each, all packed. They are read as one run of numbers, which keeps
// the loop tight.
#[derive(Drop)]
struct Locations<'a> {
    set: &'a Settings,
}

impl Entry for Locations<'_> {
    ghost format = { λ x. location_list (settings_of x.set.now) };

    ghost again = { λ _. false };

    fn read(&self, s: &[u8], r: Step, tape: &mut [u32]) -> Step {
        let (n, d) = fields::number_count(s, self.set, r?, Size::DebugLoc, tape)?;
        source_numbers(s, d, n * 5, tape)
    }
}

// One call, under the section's name and contract: its entry stays private.
pub fn function_locations(s: &[u8], set: &Settings, r: Step, tape: &mut [u32]) -> Step
    requires { Ready s.now r }
    ensures { Reader (function_locations (settings_of set.now)) s.now r tape.old
        result tape.new }
{
    lists::read_list(s, set, r, Size::FuncDebugInfo, &Locations { set }, tape)
}

// ---- inline sources

fn span(s: &[u8], r: Step, tape: &mut [u32]) -> Step
    requires { Ready s.now r }
    ensures { Reader span_format s.now r tape.old result tape.new }
{
    let file_id = fields::field::<U32>(s, r, tape);
    let line = fields::field::<U32>(s, file_id, tape);
    let col = fields::field::<U32>(s, line, tape);
    fields::field::<U32>(s, col, tape)
}

fn optional_span(s: &[u8], r: Step, tape: &mut [u32]) -> Step
    requires { Ready s.now r }
    ensures { Reader (optional span_format) s.now r tape.old result tape.new }
{
    let (n, d) = fields::number::<fields::Bool>(s, r?, tape)?;
    if n == 0 {
        return Ok(d);
    }
    span(s, Ok(d), tape)
}

struct Frame;

impl Entry for Frame {
    ghost format = { λ _. frame_format };

    ghost again = { λ _. false };

    fn read(&self, s: &[u8], r: Step, tape: &mut [u32]) -> Step {
        let parent = fields::field::<U32>(s, r, tape);
        let function_id = fields::field::<U32>(s, parent, tape);
        optional_span(s, function_id, tape)
    }
}

fn inline_frames(s: &[u8], set: &Settings, r: Step, tape: &mut [u32]) -> Step
    requires { Ready s.now r }
    ensures { Reader (frame_list (settings_of set.now)) s.now r tape.old result
        tape.new }
{
    let most = vob24_data::inline_records(set);
    let (n, d) = fields::number_debug_count(
        s,
        set,
        r?,
        Context::InlineFrames,
        most,
        Size::InlineSourceFrame,
        tape,
    )?;
    lists::entries(s, Ok(d), n, &Frame, tape)
}

struct InlineEntry;

impl Entry for InlineEntry {
    ghost format = { λ _. entry_format };

    ghost again = { λ _. false };

    fn read(&self, s: &[u8], r: Step, tape: &mut [u32]) -> Step {
        let pc = fields::field::<U32>(s, r, tape);
        fields::field::<U32>(s, pc, tape)
    }
}

// A function with at most `left` entries. Also returns their count.
fn inline_function(s: &[u8], set: &Settings, c: Cursor, left: u64, tape: &mut [u32]) -> Read<u64>
    requires { ReadyAt s.now c }
    ensures { NumberOf (function_format (settings_of set.now) left) entries_of s.now c
        tape.old result tape.new }
{
    let (_, d) = fields::number::<U32>(s, c, tape)?;
    let (n, e) = fields::number_debug_count(
        s,
        set,
        d,
        Context::InlineEntries,
        left,
        Size::InlineSourceEntry,
        tape,
    )?;
    let g = lists::entries(s, Ok(e), n, &InlineEntry, tape)?;
    Ok((n, g))
}

// The limit of the frames is also that of the functions, and of all their entries together: what one function leaves of
// it is the limit of the next, so that they are not entries of a list.
fn inline_functions(s: &[u8], set: &Settings, r: Step, functions: u64, tape: &mut [u32]) -> Step
    requires { Ready s.now r }
    ensures { Reader (function_list (settings_of set.now) functions) s.now r
        tape.old result tape.new }
{
    let all = vob24_data::inline_records(set);
    let (n, d) = fields::number_debug_count(
        s,
        set,
        r?,
        Context::InlineFunctions,
        functions.min(all),
        Size::InlineFunctionSources,
        tape,
    )?;
    let mut here = d;
    let mut left = all;
    for _ in 0..n {
        let (m, e) = inline_function(s, set, here, left, tape)?;
        here = e;
        left -= m;
    }
    Ok(here)
}

pub fn inline_sources(s: &[u8], set: &Settings, r: Step, functions: u64, tape: &mut [u32]) -> Step
    requires { Ready s.now r }
    ensures { Reader (inline_format (settings_of set.now) functions) s.now r
        tape.old result tape.new }
{
    let frames = inline_frames(s, set, r, tape);
    inline_functions(s, set, frames, functions, tape)
}
