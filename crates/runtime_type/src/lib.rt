// Runtime types, and the section that lists them.
// Ports RuntimeType of runtime_type.rs and read_runtime_type of serialize.rs. A runtime type is answered as an enum
// without lists, held in a record beside its lists' starts and counts.
// `as` stands where a number is known to fit a narrower type: a `TryFrom` would have a case that no caller meets.
#![tactic(auto)]

ghost use Rattle.vob24.specs.Settings.{settings_of};
ghost use Rattle.std.specs.Prelude.{Bool, Ok, false, ◌≡◌, ◌<◌};
ghost use Rattle.format.specs.Format.{counted, number};
ghost use Rattle.vob24.specs.Leaves.{value_kind, value_rttid};
ghost use Rattle.reader.specs.Contract.{Ready, ReadyAt, Reader, NumberOf};
ghost use Rattle.reader.specs.Accepted.{Accepted};
ghost use Rattle.reader.specs.Recorded.{RecordOf};
ghost use Rattle.runtime_type.specs.Records.{type_format, type_list, rttid_list, named_format, array_format, map_format, directed_format, func_format, struct_format, interface_format, optional_of, basic_of, named_of, array_of, map_of, directed_of, func_of, struct_of, interface_of, tuple_of, runtime_type_of};

mod kinds;

use fields::{Direction, RuntimeTag, U32, ValueRttid};
pub use kinds::{ChanDir, ValueKind};
use lists::{Entry, WithLists};
use reader::{Cursor, ListAt, Read, Step};
use vob24_data::{Settings, Size};

// A runtime type, without its lists. Other types are named by rttids.
#[derive(Clone, Copy, PartialEq, Eq, Debug)]
pub enum RuntimeType {
    Basic(ValueKind),
    Named {
        id: u32,
        struct_meta_id: Option<u32>,
    },
    Pointer(u32),
    Array {
        len: u64,
        elem: u32,
    },
    Slice(u32),
    Map {
        key: u32,
        val: u32,
    },
    Chan {
        dir: ChanDir,
        elem: u32,
    },
    Func {
        variadic: bool,
    },
    Struct {
        meta_id: u32,
    },
    Interface {
        meta_id: u32,
    },
    Tuple,
    Port {
        dir: ChanDir,
        elem: u32,
    },
    Island,
}

// A runtime type and its lists in file order: a function's parameters and results, a struct's fields, an interface's
// methods, a tuple's types. Absent lists are empty.
pub type RuntimeTypeRecord = WithLists<RuntimeType>;

struct Rttid;

impl Entry for Rttid {
    ghost format = { λ _. value_rttid };

    ghost again = { λ _. false };

    fn read(&self, s: &[u8], r: Step, tape: &mut [u32]) -> Step {
        fields::field::<ValueRttid>(s, r, tape)
    }
}

// A list of rttids. Also returns its count.
fn number_rttids(s: &[u8], set: &Settings, c: Cursor, tape: &mut [u32]) -> Read<u64>
    requires { ReadyAt s.now c }
    ensures { NumberOf (rttid_list (settings_of set.now)) counted s.now c tape.old result tape.new }
{
    lists::number_list(s, set, c, Size::ValueRttid, &Rttid, tape)
}

// ---- the records' parts

fn optional_id(raw: u64) -> Option<u32>
    requires { raw < 4294967296 }
    ensures { result ≡ optional_of raw }
{
    if raw == 0 {
        return None;
    }
    Some((raw - 1) as u32)
}

// A type by its rttid.
fn one_rttid(s: &[u8], c: Cursor, tape: &mut [u32]) -> Read<u32>
    requires { ReadyAt s.now c }
    ensures { NumberOf value_rttid number s.now c tape.old result tape.new }
{
    let (n, d) = fields::number::<ValueRttid>(s, c, tape)?;
    Ok((n as u32, d))
}

// A channel's or a port's direction, and its element.
fn directed(s: &[u8], c: Cursor, tape: &mut [u32]) -> Read<(ChanDir, u32)>
    requires { ReadyAt s.now c }
    ensures { RecordOf directed_format directed_of s.now c tape.old result tape.new }
{
    let (dir, d) = fields::number::<Direction>(s, c, tape)?;
    let (elem, e) = one_rttid(s, d, tape)?;
    Ok(((kinds::chan_dir(dir), elem), e))
}

// ---- the variants, after their tag

fn basic(s: &[u8], c: Cursor, tape: &mut [u32]) -> Read<RuntimeTypeRecord>
    requires { ReadyAt s.now c }
    ensures { RecordOf value_kind basic_of s.now c tape.old result tape.new }
{
    let (kind, d) = fields::number::<fields::ValueKind>(s, c, tape)?;
    Ok((lists::bare(RuntimeType::Basic(kinds::value_kind(kind))), d))
}

fn named(s: &[u8], c: Cursor, tape: &mut [u32]) -> Read<RuntimeTypeRecord>
    requires { ReadyAt s.now c }
    ensures { RecordOf named_format named_of s.now c tape.old result tape.new }
{
    let (id, d) = fields::number::<U32>(s, c, tape)?;
    let (raw, e) = fields::number_optional_id(s, d, tape)?;
    let kind = RuntimeType::Named {
        id: id as u32,
        struct_meta_id: optional_id(raw),
    };
    Ok((lists::bare(kind), e))
}

fn array(s: &[u8], c: Cursor, tape: &mut [u32]) -> Read<RuntimeTypeRecord>
    requires { ReadyAt s.now c }
    ensures { RecordOf array_format array_of s.now c tape.old result tape.new }
{
    let (len, d) = fields::number_u64(s, c, tape)?;
    let (elem, e) = one_rttid(s, d, tape)?;
    Ok((lists::bare(RuntimeType::Array { len, elem }), e))
}

fn map(s: &[u8], c: Cursor, tape: &mut [u32]) -> Read<RuntimeTypeRecord>
    requires { ReadyAt s.now c }
    ensures { RecordOf map_format map_of s.now c tape.old result tape.new }
{
    let (key, d) = one_rttid(s, c, tape)?;
    let (val, e) = one_rttid(s, d, tape)?;
    Ok((lists::bare(RuntimeType::Map { key, val }), e))
}

// variadic, params, results
fn func(s: &[u8], set: &Settings, c: Cursor, tape: &mut [u32]) -> Read<RuntimeTypeRecord>
    requires { ReadyAt s.now c }
    ensures { RecordOf (func_format (settings_of set.now)) func_of s.now c
        tape.old result tape.new }
{
    let (variadic, d) = fields::number::<fields::Bool>(s, c, tape)?;
    let (params, e) = number_rttids(s, set, d, tape)?;
    let (results, f) = number_rttids(s, set, e, tape)?;
    Ok((
        RuntimeTypeRecord {
            kind: RuntimeType::Func {
                variadic: variadic == 1,
            },
            first: reader::list_at(s, d, params),
            second: reader::list_at(s, e, results),
        },
        f,
    ))
}

// meta_id, fields
fn struct_type(
    s: &[u8],
    set: &Settings,
    c: Cursor,
    again: bool,
    tape: &mut [u32],
) -> Read<RuntimeTypeRecord>
    requires { (ReadyAt s.now c) × (Accepted again (struct_format (settings_of set.now)) s.now (Ok c)) }
    ensures { RecordOf (struct_format (settings_of set.now)) struct_of s.now c
        tape.old result tape.new }
{
    let (id, d) = fields::number::<U32>(s, c, tape)?;
    let (n, e) = runtime_members::number_new_fields(s, set, d, again, tape)?;
    Ok((
        RuntimeTypeRecord {
            kind: RuntimeType::Struct { meta_id: id as u32 },
            first: reader::list_at(s, d, n),
            second: ListAt { start: 0, count: 0 },
        },
        e,
    ))
}

// meta_id, methods. Its twin `struct_type` has another list, with another format and question: one function over both
// would be longer than the two.
fn interface(
    s: &[u8],
    set: &Settings,
    c: Cursor,
    again: bool,
    tape: &mut [u32],
) -> Read<RuntimeTypeRecord>
    requires { (ReadyAt s.now c) × (Accepted again (interface_format (settings_of set.now)) s.now (Ok c)) }
    ensures { RecordOf (interface_format (settings_of set.now)) interface_of s.now c
        tape.old result tape.new }
{
    let (id, d) = fields::number::<U32>(s, c, tape)?;
    let (n, e) = runtime_members::number_new_methods(s, set, d, again, tape)?;
    Ok((
        RuntimeTypeRecord {
            kind: RuntimeType::Interface { meta_id: id as u32 },
            first: reader::list_at(s, d, n),
            second: ListAt { start: 0, count: 0 },
        },
        e,
    ))
}

fn tuple(s: &[u8], set: &Settings, c: Cursor, tape: &mut [u32]) -> Read<RuntimeTypeRecord>
    requires { ReadyAt s.now c }
    ensures { RecordOf (rttid_list (settings_of set.now)) tuple_of s.now c
        tape.old result tape.new }
{
    let (n, d) = number_rttids(s, set, c, tape)?;
    Ok((
        RuntimeTypeRecord {
            kind: RuntimeType::Tuple,
            first: reader::list_at(s, c, n),
            second: ListAt { start: 0, count: 0 },
        },
        d,
    ))
}

// ---- the section

// The tag, and the type that it announces; the last arm is 12, as its leaf refuses all others. A `match`, as the arms are
// calls of different contracts: a closure's type would have to say each.
pub fn runtime_type(
    s: &[u8],
    set: &Settings,
    c: Cursor,
    again: bool,
    tape: &mut [u32],
) -> Read<RuntimeTypeRecord>
    requires { (ReadyAt s.now c) × (Accepted again (type_format (settings_of set.now)) s.now (Ok c)) }
    ensures { RecordOf (type_format (settings_of set.now)) runtime_type_of s.now c
        tape.old result tape.new }
{
    let (tag, d) = fields::number::<RuntimeTag>(s, c, tape)?;
    match tag {
        0 => basic(s, d, tape),
        1 => named(s, d, tape),
        2 => {
            let (elem, e) = one_rttid(s, d, tape)?;
            Ok((lists::bare(RuntimeType::Pointer(elem)), e))
        }
        3 => array(s, d, tape),
        4 => {
            let (elem, e) = one_rttid(s, d, tape)?;
            Ok((lists::bare(RuntimeType::Slice(elem)), e))
        }
        5 => map(s, d, tape),
        6 => {
            let ((dir, elem), e) = directed(s, d, tape)?;
            Ok((lists::bare(RuntimeType::Chan { dir, elem }), e))
        }
        7 => func(s, set, d, tape),
        8 => struct_type(s, set, d, again, tape),
        9 => interface(s, set, d, again, tape),
        10 => tuple(s, set, d, tape),
        11 => {
            let ((dir, elem), e) = directed(s, d, tape)?;
            Ok((lists::bare(RuntimeType::Port { dir, elem }), e))
        }
        _ => Ok((lists::bare(RuntimeType::Island), d)),
    }
}

// A runtime type of the list: its words alone.
#[derive(Drop)]
struct Item<'a> {
    set: &'a Settings,
    again: bool,
}

impl Entry for Item<'_> {
    ghost format = { λ x. type_format (settings_of x.set.now) };

    ghost again = { λ x. x.again };

    fn read(&self, s: &[u8], r: Step, tape: &mut [u32]) -> Step {
        let (_, d) = runtime_type(s, self.set, r?, self.again, tape)?;
        Ok(d)
    }
}

pub fn runtime_types(s: &[u8], set: &Settings, r: Step, again: bool, tape: &mut [u32]) -> Step
    requires { (Ready s.now r) × (Accepted again (type_list (settings_of set.now)) s.now r) }
    ensures { Reader (type_list (settings_of set.now)) s.now r tape.old result
        tape.new }
{
    lists::read_list(s, set, r, Size::RuntimeType, &Item { set, again }, tape)
}
