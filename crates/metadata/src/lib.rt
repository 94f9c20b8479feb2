// The metadata of each instruction.
// Ports InstructionMetadata of bytecode.rs and read_instruction_metadata_for_version of serialize.rs. A metadata is
// answered as an enum without lists, in a record beside its lists' starts and counts.
// `as` stands where a number is known to fit a narrower type: a `TryFrom` would have a case that no caller meets.
#![tactic(auto)]

ghost use Rattle.std.specs.Prelude.{Bool, ◌≡◌, true, false, ◌≤◌, length, get_or};
ghost use Rattle.format.specs.Format.{counted};
ghost use Rattle.vob24.specs.Settings.{settings_of};
ghost use Rattle.vob24.specs.Leaves.{u32};
ghost use Rattle.vob24.specs.Grammar.{slot_types};
ghost use Rattle.reader.specs.Contract.{ReadyAt, NumberOf};
ghost use Rattle.reader.specs.Recorded.{RecordOf};
ghost use Rattle.select_case.specs.Records.{select_list};
ghost use Rattle.metadata.specs.Records.{metadata_format, metadata_list, two_layouts, elem_layout, map_get, slot_layout, iface_assert, call_iface, one_of, two_of, elem_of, map_get_of, loop_end_of, slot_of, assert_of, call_iface_of, metadata_of};
ghost use Rattle.metadata.specs.Contract.{ReaderAt};

use fields::{AssertKind, MetadataTag, U16, U32};
use lists::{Entry, WithLists};
use reader::{Cursor, ListAt, Read, Step};
use vob24_data::{Settings, Size};

// The tags of the two commonest metadata, numbers as the file has them: an enum would be matched a second time.
const NONE: u8 = 0;

const CALL_LAYOUT: u8 = 11;

// What belongs to an instruction, without its lists.
#[derive(Clone, Copy, PartialEq, Eq, Debug)]
pub enum Metadata {
    None,
    ElemLayout {
        elem_bytes: u32,
        needs_sign_extend: bool,
    },
    MapGet {
        has_ok: bool,
    },
    MapSet,
    MapDelete,
    LoopEnd {
        end_pc: u32,
    },
    PtrLayout,
    SlotLayout {
        array_len: u16,
    },
    CallLayout,
    CallExternLayout,
    QueueLayout,
    MapIterNext,
    IfaceAssertLayout {
        assert_kind: u8,
        target_id: u32,
    },
    MapNew,
    CallIfaceLayout {
        iface_meta_id: u32,
        method_idx: u32,
    },
    SelectExecLayout,
}

// A metadata and its lists in file order; absent lists are empty.
pub type MetadataRecord = WithLists<Metadata>;

// ---- metadata by their shapes

// One slot layout.
fn layout(
    s: &[u8],
    set: &Settings,
    c: Cursor,
    kind: Metadata,
    tape: &mut [u32],
) -> Read<MetadataRecord>
    requires { ReadyAt s.now c }
    ensures { RecordOf (slot_types (settings_of set.now)) (one_of kind) s.now c
        tape.old result tape.new }
{
    let (n, d) = slots::number_slot_types(s, set, c, tape)?;
    Ok((
        MetadataRecord {
            kind,
            first: reader::list_at(s, c, n),
            second: ListAt { start: 0, count: 0 },
        },
        d,
    ))
}

// Two slot layouts.
fn layouts(
    s: &[u8],
    set: &Settings,
    c: Cursor,
    kind: Metadata,
    tape: &mut [u32],
) -> Read<MetadataRecord>
    requires { ReadyAt s.now c }
    ensures { RecordOf (two_layouts (settings_of set.now)) (two_of kind) s.now c
        tape.old result tape.new }
{
    let (m, d) = slots::number_slot_types(s, set, c, tape)?;
    let (n, e) = slots::number_slot_types(s, set, d, tape)?;
    Ok((
        MetadataRecord {
            kind,
            first: reader::list_at(s, c, m),
            second: reader::list_at(s, d, n),
        },
        e,
    ))
}

// elem_bytes, needs_sign_extend, slot_layout
fn elem_layout(s: &[u8], set: &Settings, c: Cursor, tape: &mut [u32]) -> Read<MetadataRecord>
    requires { ReadyAt s.now c }
    ensures { RecordOf (elem_layout (settings_of set.now)) elem_of s.now c
        tape.old result tape.new }
{
    let (bytes, d) = fields::number::<U32>(s, c, tape)?;
    let (extend, e) = fields::number::<fields::Bool>(s, d, tape)?;
    let kind = Metadata::ElemLayout {
        elem_bytes: bytes as u32,
        needs_sign_extend: extend == 1,
    };
    layout(s, set, e, kind, tape)
}

// key_layout, val_layout, has_ok
fn map_get(s: &[u8], set: &Settings, c: Cursor, tape: &mut [u32]) -> Read<MetadataRecord>
    requires { ReadyAt s.now c }
    ensures { RecordOf (map_get (settings_of set.now)) map_get_of s.now c
        tape.old result tape.new }
{
    let (m, d) = slots::number_slot_types(s, set, c, tape)?;
    let (n, e) = slots::number_slot_types(s, set, d, tape)?;
    let (ok, f) = fields::number::<fields::Bool>(s, e, tape)?;
    Ok((
        MetadataRecord {
            kind: Metadata::MapGet { has_ok: ok == 1 },
            first: reader::list_at(s, c, m),
            second: reader::list_at(s, d, n),
        },
        f,
    ))
}

// end_pc
fn loop_end(s: &[u8], c: Cursor, tape: &mut [u32]) -> Read<MetadataRecord>
    requires { ReadyAt s.now c }
    ensures { RecordOf u32 loop_end_of s.now c tape.old result tape.new }
{
    let (pc, d) = fields::number::<U32>(s, c, tape)?;
    Ok((lists::bare(Metadata::LoopEnd { end_pc: pc as u32 }), d))
}

// array_len, elem_layout
fn slot_layout(s: &[u8], set: &Settings, c: Cursor, tape: &mut [u32]) -> Read<MetadataRecord>
    requires { ReadyAt s.now c }
    ensures { RecordOf (slot_layout (settings_of set.now)) slot_of s.now c
        tape.old result tape.new }
{
    let (length, d) = fields::number::<U16>(s, c, tape)?;
    let kind = Metadata::SlotLayout {
        array_len: length as u16,
    };
    layout(s, set, d, kind, tape)
}

// assert_kind, target_id, result_layout
fn iface_assert_layout(
    s: &[u8],
    set: &Settings,
    c: Cursor,
    tape: &mut [u32],
) -> Read<MetadataRecord>
    requires { ReadyAt s.now c }
    ensures { RecordOf (iface_assert (settings_of set.now)) assert_of s.now c
        tape.old result tape.new }
{
    let (assert, d) = fields::number::<AssertKind>(s, c, tape)?;
    let (target, e) = fields::number::<U32>(s, d, tape)?;
    let kind = Metadata::IfaceAssertLayout {
        assert_kind: assert as u8,
        target_id: target as u32,
    };
    layout(s, set, e, kind, tape)
}

// iface_meta_id, method_idx, arg_layout, ret_layout
fn call_iface_layout(s: &[u8], set: &Settings, c: Cursor, tape: &mut [u32]) -> Read<MetadataRecord>
    requires { ReadyAt s.now c }
    ensures { RecordOf (call_iface (settings_of set.now)) call_iface_of s.now c
        tape.old result tape.new }
{
    let (id, d) = fields::number::<U32>(s, c, tape)?;
    let (method, e) = fields::number::<U32>(s, d, tape)?;
    let kind = Metadata::CallIfaceLayout {
        iface_meta_id: id as u32,
        method_idx: method as u32,
    };
    layouts(s, set, e, kind, tape)
}

// cases
fn select_exec_layout(s: &[u8], set: &Settings, c: Cursor, tape: &mut [u32]) -> Read<MetadataRecord>
    requires { ReadyAt s.now c }
    ensures { RecordOf (select_list (settings_of set.now)) (one_of Metadata.SelectExecLayout)
        s.now c tape.old result tape.new }
{
    let (n, d) = select_case::number_select_cases(s, set, c, tape)?;
    Ok((
        MetadataRecord {
            kind: Metadata::SelectExecLayout,
            first: reader::list_at(s, c, n),
            second: ListAt { start: 0, count: 0 },
        },
        d,
    ))
}

// The tag, and the metadata that it announces; the last arm is 18, as its leaf refuses all others. A `match`, as the arms
// are calls of different contracts: a closure's type would have to say each.
pub fn instruction_metadata(
    s: &[u8],
    set: &Settings,
    c: Cursor,
    tape: &mut [u32],
) -> Read<MetadataRecord>
    requires { ReadyAt s.now c }
    ensures { RecordOf (metadata_format (settings_of set.now)) metadata_of s.now c
        tape.old result tape.new }
{
    let (tag, d) = fields::number::<MetadataTag>(s, c, tape)?;
    match tag {
        0 => Ok((lists::bare(Metadata::None), d)),
        1 => elem_layout(s, set, d, tape),
        2 => map_get(s, set, d, tape),
        3 => layouts(s, set, d, Metadata::MapSet, tape),
        4 => layout(s, set, d, Metadata::MapDelete, tape),
        5 => loop_end(s, d, tape),
        9 => layout(s, set, d, Metadata::PtrLayout, tape),
        10 => slot_layout(s, set, d, tape),
        11 => layouts(s, set, d, Metadata::CallLayout, tape),
        12 => layouts(s, set, d, Metadata::CallExternLayout, tape),
        13 => layout(s, set, d, Metadata::QueueLayout, tape),
        14 => layouts(s, set, d, Metadata::MapIterNext, tape),
        15 => iface_assert_layout(s, set, d, tape),
        16 => layouts(s, set, d, Metadata::MapNew, tape),
        17 => call_iface_layout(s, set, d, tape),
        _ => select_exec_layout(s, set, d, tape),
    }
}

// ---- lists, in which no record is asked for

// Is the byte at `place` this tag? False at the end.
fn is_tag(s: &[u8], place: usize, tag: u8) -> bool
    requires { place ≤ length s.now }
    ensures { result ≡ true → get_or s.now place 0 ≡ tag }
{
    s.get(place) == Some(&tag)
}

fn two_layouts(s: &[u8], set: &Settings, c: Cursor, tape: &mut [u32]) -> Step
    requires { ReadyAt s.now c }
    ensures { ReaderAt (two_layouts (settings_of set.now)) s.now c tape.old result
        tape.new }
{
    let (_, d) = slots::number_slot_types(s, set, c, tape)?;
    let (_, e) = slots::number_slot_types(s, set, d, tape)?;
    Ok(e)
}

#[derive(Clone, Copy)]
struct InstructionMetadata<'a> {
    set: &'a Settings,
}

// The two commonest, None and CallLayout, are read without their records.
impl Entry for InstructionMetadata<'_> {
    ghost format = { λ x. metadata_format (settings_of x.set.now) };

    ghost again = { λ _. false };

    fn read(&self, s: &[u8], r: Step, tape: &mut [u32]) -> Step {
        let c = r?;
        let place = c.place;
        if is_tag(s, place, NONE) {
            let (_, d) = fields::number::<MetadataTag>(s, c, tape)?;
            return Ok(d);
        }
        if is_tag(s, place, CALL_LAYOUT) {
            let (_, d) = fields::number::<MetadataTag>(s, c, tape)?;
            return two_layouts(s, self.set, d, tape);
        }
        let (_, d) = instruction_metadata(s, self.set, c, tape)?;
        Ok(d)
    }
}

// Also returns the count.
pub fn number_instruction_metadata(
    s: &[u8],
    set: &Settings,
    c: Cursor,
    tape: &mut [u32],
) -> Read<u64>
    requires { ReadyAt s.now c }
    ensures { NumberOf (metadata_list (settings_of set.now)) counted s.now c
        tape.old result tape.new }
{
    lists::number_list(
        s,
        set,
        c,
        Size::InstructionMetadata,
        &InstructionMetadata { set },
        tape,
    )
}
