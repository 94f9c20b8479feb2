// Prints one record of each kind from its bytes: runtime types, instructions' metadata, select cases and constants. A
// line has the enum's case with its fields; for a record, the start and count of its lists; then the place after it. A
// constant's line ends with its words on the tape.
// `as` of an enum gives its number.
#![tactic(auto)]

ghost use Rattle.std.specs.Prelude.{◌≤◌, length};

use constants::answers::Constant;
use metadata::{Metadata, MetadataRecord};
use reader::{Cursor, ListAt, Read};
use runtime_type::{RuntimeType, RuntimeTypeRecord};
use select_case::SelectCase;
use std::fmt::{self, Display};
use std::io;

// More than any record here. Tapes are arrays, as nothing here takes from a heap.
const MOST: usize = 64;

const START: Cursor = Cursor {
    place: 0,
    left: 4096,
    at: 0,
};

// A value of another crate, as a line shows it.
#[derive(Drop)]
struct Shown<T>(T);

// A kind with its two lists.
fn write_record<W: fmt::Write>(
    f: &mut fmt::Formatter<W>,
    kind: impl Display + Drop,
    first: ListAt,
    second: ListAt,
) -> fmt::Result {
    write!(
        f,
        "{kind}, lists {} {} {} {}",
        first.start, first.count, second.start, second.count
    )
}

impl Display for Shown<RuntimeTypeRecord> {
    fn fmt<W: fmt::Write>(&self, f: &mut fmt::Formatter<W>) -> fmt::Result {
        let record = self.0;
        write_record(f, Shown(record.kind), record.first, record.second)
    }
}

impl Display for Shown<MetadataRecord> {
    fn fmt<W: fmt::Write>(&self, f: &mut fmt::Formatter<W>) -> fmt::Result {
        let record = self.0;
        write_record(f, Shown(record.kind), record.first, record.second)
    }
}

// A record with the place after it, or the refusal's number.
fn line<T: Display + Drop>(rt: &impl Print, read: Read<T>) -> io::Result<()> {
    match read {
        Ok((record, d)) => println!(rt; "{record}, place {}", d.place),
        Err(x) => println!(rt; "refused {}", u64::from(x.kind)),
    }
}

// ---- runtime types

impl Display for Shown<Option<u32>> {
    fn fmt<W: fmt::Write>(&self, f: &mut fmt::Formatter<W>) -> fmt::Result {
        match self.0 {
            None => write!(f, "absent"),
            Some(id) => write!(f, "{id}"),
        }
    }
}

impl Display for Shown<RuntimeType> {
    fn fmt<W: fmt::Write>(&self, f: &mut fmt::Formatter<W>) -> fmt::Result {
        match self.0 {
            RuntimeType::Basic(value_kind) => write!(f, "Basic {}", u8::from(value_kind)),
            RuntimeType::Named { id, struct_meta_id } => {
                write!(f, "Named id {id} struct_meta_id {}", Shown(struct_meta_id))
            }
            RuntimeType::Pointer(elem) => write!(f, "Pointer {elem}"),
            RuntimeType::Array { len, elem } => write!(f, "Array len {len} elem {elem}"),
            RuntimeType::Slice(elem) => write!(f, "Slice {elem}"),
            RuntimeType::Map { key, val } => write!(f, "Map key {key} val {val}"),
            RuntimeType::Chan { dir, elem } => write!(f, "Chan dir {} elem {elem}", u8::from(dir)),
            RuntimeType::Func { variadic } => write!(f, "Func variadic {variadic}"),
            RuntimeType::Struct { meta_id } => write!(f, "Struct meta_id {meta_id}"),
            RuntimeType::Interface { meta_id } => write!(f, "Interface meta_id {meta_id}"),
            RuntimeType::Tuple => write!(f, "Tuple"),
            RuntimeType::Port { dir, elem } => write!(f, "Port dir {} elem {elem}", u8::from(dir)),
            RuntimeType::Island => write!(f, "Island"),
        }
    }
}

fn runtime_type(rt: &impl Print, s: &[u8]) -> io::Result<()>
    requires { length s.now ≤ MOST }
{
    let mut tape = [0; 64];
    let read = runtime_type::runtime_type(s, &vob24_data::MEASURED, START, false, &mut tape);
    line(rt, read.map(|(record, d)| (Shown(record), d)))
}

// ---- instructions' metadata

impl Display for Shown<Metadata> {
    fn fmt<W: fmt::Write>(&self, f: &mut fmt::Formatter<W>) -> fmt::Result {
        match self.0 {
            Metadata::None => write!(f, "None"),
            Metadata::ElemLayout {
                elem_bytes,
                needs_sign_extend,
            } => write!(
                f,
                "ElemLayout elem_bytes {elem_bytes} needs_sign_extend {needs_sign_extend}"
            ),
            Metadata::MapGet { has_ok } => write!(f, "MapGet has_ok {has_ok}"),
            Metadata::MapSet => write!(f, "MapSet"),
            Metadata::MapDelete => write!(f, "MapDelete"),
            Metadata::LoopEnd { end_pc } => write!(f, "LoopEnd end_pc {end_pc}"),
            Metadata::PtrLayout => write!(f, "PtrLayout"),
            Metadata::SlotLayout { array_len } => write!(f, "SlotLayout array_len {array_len}"),
            Metadata::CallLayout => write!(f, "CallLayout"),
            Metadata::CallExternLayout => write!(f, "CallExternLayout"),
            Metadata::QueueLayout => write!(f, "QueueLayout"),
            Metadata::MapIterNext => write!(f, "MapIterNext"),
            Metadata::IfaceAssertLayout {
                assert_kind,
                target_id,
            } => write!(
                f,
                "IfaceAssertLayout assert_kind {assert_kind} target_id {target_id}"
            ),
            Metadata::MapNew => write!(f, "MapNew"),
            Metadata::CallIfaceLayout {
                iface_meta_id,
                method_idx,
            } => write!(
                f,
                "CallIfaceLayout iface_meta_id {iface_meta_id} method_idx {method_idx}"
            ),
            Metadata::SelectExecLayout => write!(f, "SelectExecLayout"),
        }
    }
}

fn read_metadata(s: &[u8]) -> Read<MetadataRecord>
    requires { length s.now ≤ MOST }
{
    let mut tape = [0; 64];
    metadata::instruction_metadata(s, &vob24_data::MEASURED, START, &mut tape)
}

fn metadata(rt: &impl Print, s: &[u8]) -> io::Result<()>
    requires { length s.now ≤ MOST }
{
    let read = read_metadata(s);
    line(rt, read.map(|(record, d)| (Shown(record), d)))
}

// ---- select cases

impl Display for Shown<SelectCase> {
    fn fmt<W: fmt::Write>(&self, f: &mut fmt::Formatter<W>) -> fmt::Result {
        match self.0 {
            SelectCase::Send {
                queue,
                value,
                elem_slots,
            } => write!(
                f,
                "  Send queue {queue} value {value} elem_slots {elem_slots}"
            ),
            SelectCase::Recv {
                destination,
                queue,
                elem_slots,
                has_ok,
            } => write!(
                f,
                "  Recv destination {destination} queue {queue} elem_slots {elem_slots} has_ok {has_ok}"
            ),
        }
    }
}

// Returns the place after the case, where it is taken.
fn select_case(rt: &impl Print, s: &[u8], place: usize) -> io::Result<Option<usize>>
    requires { length s.now ≤ MOST }
{
    if s.len() < place {
        return Ok(None);
    }
    let mut tape = [0; 64];
    let read = select_case::select_case(s, Cursor { place, ..START }, &mut tape);
    let next = read.as_ref().ok().map(|(_, d)| d.place);
    line(rt, read.map(|(case, d)| (Shown(case), d)))?;
    Ok(next)
}

// A select's metadata, and below it the cases of its first list.
fn select(rt: &impl Print, s: &[u8]) -> io::Result<()>
    requires { length s.now ≤ MOST }
{
    metadata(rt, s)?;
    let Ok((record, _)) = read_metadata(s) else {
        return Ok(());
    };
    let mut place = record.first.start;
    for _ in 0..record.first.count {
        let Some(next) = select_case(rt, s, place)? else {
            return Ok(());
        };
        place = next;
    }
    Ok(())
}

// ---- constants

// By its bits; a NaN has none.
impl Display for Shown<f64> {
    fn fmt<W: fmt::Write>(&self, f: &mut fmt::Formatter<W>) -> fmt::Result {
        if self.0.is_nan() {
            write!(f, "NaN")
        } else {
            write!(f, "{:016x}", self.0.to_bits())
        }
    }
}

impl Display for Shown<Constant> {
    fn fmt<W: fmt::Write>(&self, f: &mut fmt::Formatter<W>) -> fmt::Result {
        match self.0 {
            Constant::Nil => write!(f, "Nil"),
            Constant::Bool(b) => write!(f, "Bool {b}"),
            Constant::Int(n) => write!(f, "Int {n}"),
            Constant::Float(x) => write!(f, "Float {}", Shown(x)),
            Constant::Text(span) => write!(f, "Text start {} length {}", span.start, span.length),
        }
    }
}

// A constant with its words, one to three.
#[derive(Drop)]
struct WithWords<'a>(Constant, &'a [u32]);

impl Display for WithWords<'_> {
    fn fmt<W: fmt::Write>(&self, f: &mut fmt::Formatter<W>) -> fmt::Result {
        write!(f, "{}, words", Shown(self.0))?;
        for word in self.1 {
            write!(f, " {word}")?;
        }
        Ok(())
    }
}

fn constant(rt: &impl Print, s: &[u8]) -> io::Result<()>
    requires { length s.now ≤ MOST }
{
    let mut tape = [0; 64];
    let read = constants::constant(s, START, &mut tape);
    line(
        rt,
        read.map(|(constant, d)| (WithWords(constant, &tape[..d.at.min(tape.len())]), d)),
    )
}

fn runtime_types(rt: &impl Print) -> io::Result<()> {
    runtime_type(rt, b"\x00\x02")?;
    runtime_type(rt, b"\x01\x07\x00\x00\x00\x06\x00\x00\x00")?;
    runtime_type(rt, b"\x01\x07\x00\x00\x00\x00\x00\x00\x00")?;
    runtime_type(rt, b"\x02\x12\x03\x00\x00")?;
    runtime_type(rt, b"\x03\x05\x00\x00\x00\x01\x00\x00\x00\x02\x01\x00\x00")?;
    runtime_type(rt, b"\x04\x02\x00\x00\x00")?;
    runtime_type(rt, b"\x05\x0b\x00\x00\x00\x02\x01\x00\x00")?;
    runtime_type(rt, b"\x06\x01\x02\x00\x00\x00")?;
    runtime_type(
        rt,
        b"\x07\x01\x02\x00\x00\x00\x02\x00\x00\x00\x03\x00\x00\x00\x01\x00\x00\x00\x04\x00\x00\x00",
    )?;
    runtime_type(
        rt,
        b"\x08\x04\x00\x00\x00\x01\x00\x00\x00\x01\x00\x00\x00a\x02\x00\x00\x00\x00\x00\x00\x00\x00\x00\x00\x00\x00",
    )?;
    runtime_type(
        rt,
        b"\x09\x04\x00\x00\x00\x01\x00\x00\x00\x01\x00\x00\x00m\x02\x00\x00\x00",
    )?;
    runtime_type(rt, b"\x0a\x02\x00\x00\x00\x02\x00\x00\x00\x03\x00\x00\x00")?;
    runtime_type(rt, b"\x0b\x02\x02\x00\x00\x00")?;
    runtime_type(rt, b"\x0c")
}

fn all_metadata(rt: &impl Print) -> io::Result<()> {
    metadata(rt, b"\x00")?;
    metadata(rt, b"\x01\x08\x00\x00\x00\x01\x02\x00\x00\x00\x00\x01")?;
    metadata(rt, b"\x02\x01\x00\x00\x00\x00\x02\x00\x00\x00\x01\x02\x01")?;
    metadata(rt, b"\x03\x01\x00\x00\x00\x00\x02\x00\x00\x00\x01\x02")?;
    metadata(rt, b"\x04\x01\x00\x00\x00\x03")?;
    metadata(rt, b"\x05\x00\x01\x00\x00")?;
    metadata(rt, b"\x09\x02\x00\x00\x00\x04\x05")?;
    metadata(rt, b"\x0a\x00\x01\x01\x00\x00\x00\x00")?;
    metadata(rt, b"\x0b\x00\x00\x00\x00\x01\x00\x00\x00\x00")?;
    metadata(rt, b"\x0c\x02\x00\x00\x00\x00\x00\x00\x00\x00\x00")?;
    metadata(rt, b"\x0d\x00\x00\x00\x00")?;
    metadata(rt, b"\x0e\x01\x00\x00\x00\x00\x01\x00\x00\x00\x00")?;
    metadata(rt, b"\x0f\x01\x09\x00\x00\x00\x01\x00\x00\x00\x02")?;
    metadata(rt, b"\x10\x01\x00\x00\x00\x00\x03\x00\x00\x00\x00\x01\x02")?;
    metadata(
        rt,
        b"\x11\x03\x00\x00\x00\x01\x00\x00\x00\x01\x00\x00\x00\x00\x01\x00\x00\x00\x01",
    )?;
    select(
        rt,
        b"\x12\x02\x00\x00\x00\x00\x01\x00\x02\x00\x01\x00\x01\x03\x00\x04\x00\x02\x00\x01",
    )
}

fn all_constants(rt: &impl Print) -> io::Result<()> {
    constant(rt, b"\x00")?;
    constant(rt, b"\x01\x01")?;
    constant(rt, b"\x02\xfe\xff\xff\xff\xff\xff\xff\xff")?;
    constant(rt, b"\x03\x00\x00\x00\x00\x00\x00\xf8\x3f")?;
    constant(rt, b"\x03\x01\x00\x00\x00\x00\x00\xf8\xff")?;
    constant(rt, b"\x04\x02\x00\x00\x00hi")
}

fn main(rt: HostRuntime) -> io::Result<()> {
    runtime_types(&rt)?;
    all_metadata(&rt)?;
    all_constants(&rt)
}
