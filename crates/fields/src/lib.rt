// The field readers: a leaf, and its words on the tape. `number` and `span` readers start at a cursor and also return the
// number, or the part of the pack, that they read; `field` readers take the answer so far and give the next. Ports the
// read_ functions of serialize.rs on one field.
// `as` stands between usize and u64, where Rust has no `From`.
#![tactic(auto)]

ghost use Rattle.format.specs.Format.{number, leaf};
ghost use Rattle.vob24.specs.Settings.{settings_of};
ghost use Rattle.vob24.specs.Leaves.{u8, u16, u32, u64, optional_id, bool, slot_type, value_kind, direction, value_meta, value_rttid, source_u32, str, member_name, optional};
ghost use Rattle.vob24.specs.Grammar.{assert_kind, magic, version};
ghost use Rattle.vob24_data.specs.Sizes.{size_number};
ghost use Rattle.reader.specs.Numbers.{context_number};
ghost use Rattle.reader.specs.Contract.{Ready, ReadyAt, Reader, NumberOf, SpanOf};
ghost use Rattle.fields.specs.Fields.{runtime_tag, constant_tag, select_tag, metadata_tagged, list_count, debug_count, artifact_count, method_count, artifact_name, artifact_payload};
ghost use Rattle.fields.specs.Kept.{WordyRead, KeptRead, SpanRead, KeptSpan};

mod words;

use reader::{Context, Cursor, Read, Span, Step};
use vob24_data::{Settings, Size};
pub use words::{
    AssertKind, Bool, ConstantTag, Direction, MetadataTag, RuntimeTag, SelectTag, SlotType,
    SourceU32, U8, U16, U32, ValueKind, ValueMeta, ValueRttid, Word,
};

// The number's word, where there is a number.
fn kept(q: Read<u64>, tape: &mut [u32]) -> Read<u64>
    requires { WordyRead q }
    ensures { KeptRead q tape.old result tape.new }
{
    let (n, d) = q?;
    Ok((n, reader::keep(d, n, tape)))
}

// The same of the two words of a part of the pack.
fn kept_span(q: Read<Span>, tape: &mut [u32]) -> Read<Span>
    requires { SpanRead q }
    ensures { KeptSpan q tape.old result tape.new }
{
    let (span, d) = q?;
    Ok((
        span,
        reader::keep_pair(d, span.start as u64, span.length as u64, tape),
    ))
}

// ---- numbers

// A number of one word.
pub fn number<W: Word>(s: &[u8], c: Cursor, tape: &mut [u32]) -> Read<u64>
    requires { ReadyAt s.now c }
    ensures { NumberOf (leaf W.leaf) number s.now c tape.old result tape.new }
{
    kept(W::read(s, c), tape)
}

// The low word, then the high.
pub fn number_u64(s: &[u8], c: Cursor, tape: &mut [u32]) -> Read<u64>
    requires { ReadyAt s.now c }
    ensures { NumberOf u64 number s.now c tape.old result tape.new }
{
    let (n, d) = reader::read_u64(s, c)?;
    Ok((n, reader::keep_long(d, n, tape)))
}

// As it is stored: the id plus 1; 0 where there is none.
pub fn number_optional_id(s: &[u8], c: Cursor, tape: &mut [u32]) -> Read<u64>
    requires { ReadyAt s.now c }
    ensures { NumberOf optional_id number s.now c tape.old result tape.new }
{
    let (n, d) = reader::read_u32(s, c)?;
    if n == 0 {
        return Ok((n, reader::keep_pair(d, 0, 0, tape)));
    }
    Ok((n, reader::keep_pair(d, 1, n - 1, tape)))
}

// ---- counts

// The count of a list of entries, each of this size.
pub fn number_count(s: &[u8], set: &Settings, c: Cursor, entry: Size, tape: &mut [u32]) -> Read<u64>
    requires { ReadyAt s.now c }
    ensures { NumberOf (list_count (settings_of set.now) (size_number entry)) number s.now c tape.old result tape.new }
{
    kept(length_leaves::read_count(s, set, c, entry), tape)
}

pub fn number_debug_count(
    s: &[u8],
    set: &Settings,
    c: Cursor,
    context: Context,
    most: u64,
    entry: Size,
    tape: &mut [u32],
) -> Read<u64>
    requires { ReadyAt s.now c }
    ensures { NumberOf (debug_count (settings_of set.now) (context_number context) most (size_number entry)) number s.now c tape.old result tape.new }
{
    kept(
        length_leaves::read_debug_count(s, set, c, context, most, entry),
        tape,
    )
}

// A leaf of its own, with settings: a `Word` of it would be longer.
pub fn number_artifact_count(s: &[u8], set: &Settings, c: Cursor, tape: &mut [u32]) -> Read<u64>
    requires { ReadyAt s.now c }
    ensures { NumberOf (artifact_count (settings_of set.now)) number s.now c tape.old result tape.new }
{
    kept(length_leaves::read_artifact_count(s, set, c), tape)
}

// Another leaf, with settings: a `Word` of it would be longer, too.
pub fn number_method_count(s: &[u8], set: &Settings, c: Cursor, tape: &mut [u32]) -> Read<u64>
    requires { ReadyAt s.now c }
    ensures { NumberOf (method_count (settings_of set.now)) number s.now c tape.old result tape.new }
{
    kept(length_leaves::read_method_count(s, set, c), tape)
}

// ---- numbers, in the answer so far

pub fn field<W: Word>(s: &[u8], r: Step, tape: &mut [u32]) -> Step
    requires { Ready s.now r }
    ensures { Reader (leaf W.leaf) s.now r tape.old result tape.new }
{
    let (_, d) = number::<W>(s, r?, tape)?;
    Ok(d)
}

// Named as the grammar names the leaf, which is no `Word`: its number takes two words of the tape.
pub fn field_optional_id(s: &[u8], r: Step, tape: &mut [u32]) -> Step
    requires { Ready s.now r }
    ensures { Reader optional_id s.now r tape.old result tape.new }
{
    let (_, d) = number_optional_id(s, r?, tape)?;
    Ok(d)
}

// ---- texts and payloads

// Inlined for speed, as measured: docs/CHANGES.md, "The design pass".
#[inline(always)]
pub fn span_str(s: &[u8], c: Cursor, tape: &mut [u32]) -> Read<Span>
    requires { ReadyAt s.now c }
    ensures { SpanOf str s.now c tape.old result tape.new }
{
    let (text, d) = length_leaves::read_string(s, c.place, c.left, c.at)?;
    kept_span(Ok((text.span, d)), tape)
}

// Named as the grammar names the leaf, for readers that have no use for the span.
pub fn field_str(s: &[u8], r: Step, tape: &mut [u32]) -> Step
    requires { Ready s.now r }
    ensures { Reader str s.now r tape.old result tape.new }
{
    let (_, d) = span_str(s, r?, tape)?;
    Ok(d)
}

// The name of a struct's field, an interface's method or a named type's method. Named as the grammar names the leaf.
pub fn field_member_name(s: &[u8], r: Step, tape: &mut [u32]) -> Step
    requires { Ready s.now r }
    ensures { Reader member_name s.now r tape.old result tape.new }
{
    field_str(s, r, tape)
}

pub fn field_optional_str(s: &[u8], r: Step, tape: &mut [u32]) -> Step
    requires { Ready s.now r }
    ensures { Reader (optional str) s.now r tape.old result tape.new }
{
    let (n, d) = number::<Bool>(s, r?, tape)?;
    if n == 0 {
        return Ok(d);
    }
    field_str(s, Ok(d), tape)
}

pub fn field_artifact_name(s: &[u8], set: &Settings, r: Step, tape: &mut [u32]) -> Step
    requires { Ready s.now r }
    ensures { Reader (artifact_name (settings_of set.now)) s.now r tape.old result
        tape.new }
{
    let most = vob24_data::artifact_name_bytes(set);
    let (text, d) = length_leaves::read_artifact_string(s, r?, Context::ArtifactName, most)?;
    let (_, e) = kept_span(Ok((text.span, d)), tape)?;
    Ok(e)
}

pub fn field_artifact_payload(s: &[u8], set: &Settings, r: Step, tape: &mut [u32]) -> Step
    requires { Ready s.now r }
    ensures { Reader (artifact_payload (settings_of set.now)) s.now r tape.old result
        tape.new }
{
    let most = vob24_data::artifact_payload_bytes(set);
    let payload = length_leaves::read_artifact_bytes(s, r?, Context::ArtifactPayload, most);
    let (_, d) = kept_span(payload, tape)?;
    Ok(d)
}

// ---- marks, which are not on the tape

// Named as the grammar names the mark, and takes the answer so far, as the other fields do.
pub fn field_magic(s: &[u8], r: Step, tape: &mut [u32]) -> Step
    requires { Ready s.now r }
    ensures { Reader magic s.now r tape.old result tape.new }
{
    number_leaves::read_magic(s, r?)
}

// Named as the grammar names it, and of the shape of `field_magic`.
pub fn field_version(s: &[u8], r: Step, tape: &mut [u32]) -> Step
    requires { Ready s.now r }
    ensures { Reader version s.now r tape.old result tape.new }
{
    number_leaves::read_version(s, r?)
}
