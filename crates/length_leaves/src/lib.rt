// Leaves with a length or a count: payloads, texts, and the counts of lists, each with the bytes left and the charge.
// Ports read_bytes, read_string and, for the counts, what read_vec, read_debug_vec and their kin of `impl ByteReader`
// in serialize.rs ask before the first item.
// `as` stands between usize and u64, where Rust has no `From`.
#![tactic(auto)]

ghost use Rattle.std.specs.Prelude.{◌≡◌, ◌+◌, ◌≤◌, length as length_of};
ghost use Rattle.format.specs.Trace.{refused};
ghost use Rattle.format.specs.Format.{Leaf};
ghost use Rattle.vob24.specs.Refusals;
ghost use Rattle.vob24.specs.Settings.{settings_of, size_of, ModuleArtifact};
ghost use Rattle.vob24.specs.Utf8.{well_formed};
ghost use Rattle.vob24.specs.Leaves.{free, limit};
ghost use Rattle.vob24.specs.Grammar.{method_size};
ghost use Rattle.reader.specs.Contract.{cursor_at, told, ReadyAt};
ghost use Rattle.reader.specs.Numbers.{kind_number, context_number};
ghost use Rattle.vob24_data.specs.Sizes.{size_number};
ghost use Rattle.reader.specs.Leaves.{Answers, CountAt, Counted, Spans, Bought, Texts, Checked};

use reader::{Context, Cursor, Kind, Read, Refusal, Span, Text};
use vob24_data::{Settings, Size};

// The refusal of a length or count above its limit.
fn over(d: Cursor, kind: Kind, context: Context, n: u64, most: u64) -> Refusal
    ensures { told result ≡ refused ((limit (kind_number kind) (context_number context) most).why n) d.place d.left }
{
    Refusal {
        kind,
        context: u64::from(context),
        detail1: n,
        detail2: most,
        place: d.place,
        left: d.left,
    }
}

// What follows a length: the bytes, and their charge.
fn bytes(s: &[u8], d: Cursor, n: u64, context: Context) -> Read<Span>
    requires { ReadyAt s.now d }
    ensures { Bought s.now d n (context_number context) result }
{
    let start = d.place;
    if ((s.len() - start) as u64) < n {
        return Err(reader::refuse(d, Kind::UnexpectedEof, 0));
    }
    let length = n as usize;
    let past = Cursor {
        place: start + length,
        ..d
    };
    let e = reader::charge_allocation(past, context, n)?;
    Ok((Span { start, length }, e))
}

fn read_bytes(s: &[u8], c: Cursor) -> Read<Span>
    requires { ReadyAt s.now c }
    ensures { Spans (Leaf.payload free Refusals.byte_string) s.now c result }
{
    let (n, d) = reader::read_u32(s, c)?;
    bytes(s, d, n, Context::ByteString)
}

pub fn read_artifact_bytes(s: &[u8], c: Cursor, context: Context, most: u64) -> Read<Span>
    requires { ReadyAt s.now c }
    ensures { Spans (Leaf.payload (limit Refusals.module_artifact_limit_exceeded (context_number context) most) (context_number context))
        s.now c result }
{
    let (n, d) = reader::read_u32(s, c)?;
    if most < n {
        return Err(over(d, Kind::ModuleArtifactLimitExceeded, context, n, most));
    }
    bytes(s, d, n, context)
}

// A payload's bytes as a text.
fn text(s: &[u8], span: Span, d: Cursor) -> Read<Text>
    requires { span.start + span.length ≤ length_of s.now }
    ensures { Checked s.now (Ok (span, d)) result }
{
    let end = span.start + span.length;
    let Some(characters) = utf8::scan_at(&s[0..end], span.start, span.length) else {
        return Err(reader::refuse(d, Kind::InvalidUtf8, 0));
    };
    Ok((Text { span, characters }, d))
}

// Scalars, not a Cursor: each text depends on the place after the one before, and a store and load in between would add
// its latency to every text.
pub fn read_string(s: &[u8], place: usize, left: u64, at: usize) -> Read<Text>
    requires { ReadyAt s.now (cursor_at place left at) }
    ensures { Texts (Leaf.string free Refusals.byte_string well_formed) s.now (cursor_at place left at)
        result }
{
    let (span, d) = read_bytes(s, Cursor { place, left, at })?;
    let end = span.start + span.length;
    if let Some(characters) = utf8::try_short(&s[0..end], span.start, span.length) {
        return Ok((Text { span, characters }, d));
    }
    // Copies, so that no address escapes on the short way above.
    let copy = Cursor {
        place: d.place,
        left: d.left,
        at: d.at,
    };
    let (found, e) = text(s, span, copy)?;
    Ok((found, e))
}

pub fn read_artifact_string(s: &[u8], c: Cursor, context: Context, most: u64) -> Read<Text>
    requires { ReadyAt s.now c }
    ensures { Texts (Leaf.string (limit Refusals.module_artifact_limit_exceeded (context_number context) most) (context_number context) well_formed)
        s.now c result }
{
    let (span, d) = read_artifact_bytes(s, c, context, most)?;
    text(s, span, d)
}

// ---- counts

// What follows a count: the bytes of its entries, and their charge.
fn counted(s: &[u8], d: Cursor, n: u64, least: u64, context: Context, size: u64) -> Read<u64>
    requires { CountAt s.now d n least size }
    ensures { Counted s.now d n least (context_number context) size result }
{
    let place = d.place;
    if ((s.len() - place) as u64) < n * least {
        let few = reader::refuse(d, Kind::UnexpectedEof, 0);
        return Err(few);
    }
    let e = reader::charge_allocation(d, context, n * size)?;
    Ok((n, e))
}

// The count of a list of entries, each of this size.
pub fn read_count(s: &[u8], set: &Settings, c: Cursor, entry: Size) -> Read<u64>
    requires { ReadyAt s.now c }
    ensures { Answers (Leaf.count free 1 Refusals.vector (size_of (settings_of set.now) (size_number entry)))
        s.now c result }
{
    let (n, d) = reader::read_u32(s, c)?;
    counted(s, d, n, 1, Context::Vector, entry.bytes(set))
}

// The count of an inline list, which is at most `most`: `read_debug_vec`.
pub fn read_debug_count(
    s: &[u8],
    set: &Settings,
    c: Cursor,
    context: Context,
    most: u64,
    entry: Size,
) -> Read<u64>
    requires { ReadyAt s.now c }
    ensures { Answers
        (Leaf.count (limit Refusals.debug_metadata_limit_exceeded (context_number context) most) 1 Refusals.vector
        (size_of (settings_of set.now) (size_number entry))) s.now c result }
{
    let (n, d) = reader::read_u32(s, c)?;
    if most < n {
        return Err(over(d, Kind::DebugMetadataLimitExceeded, context, n, most));
    }
    counted(s, d, n, 1, Context::Vector, entry.bytes(set))
}

// The count of artifacts, which is not compared with the bytes left.
pub fn read_artifact_count(s: &[u8], set: &Settings, c: Cursor) -> Read<u64>
    requires { ReadyAt s.now c }
    ensures { Answers
        (Leaf.count (limit Refusals.module_artifact_limit_exceeded Refusals.artifact_count
        (settings_of set.now).artifacts) 0 Refusals.module_artifacts
        (size_of (settings_of set.now) ModuleArtifact)) s.now c result }
{
    let (n, d) = reader::read_u32(s, c)?;
    let most = vob24_data::artifacts(set);
    if most < n {
        return Err(over(
            d,
            Kind::ModuleArtifactLimitExceeded,
            Context::ArtifactCount,
            n,
            most,
        ));
    }
    counted(
        s,
        d,
        n,
        0,
        Context::ModuleArtifacts,
        Size::ModuleArtifact.bytes(set),
    )
}

// The count of a named type's methods: 14 bytes each at the least, and a charge of their own.
pub fn read_method_count(s: &[u8], set: &Settings, c: Cursor) -> Read<u64>
    requires { ReadyAt s.now c }
    ensures { Answers (Leaf.count free 14 Refusals.named_method_map (method_size (settings_of set.now)))
        s.now c result }
{
    let (n, d) = reader::read_u32(s, c)?;
    let size = Size::StringMethodInfo.bytes(set) + 3 * Size::Usize.bytes(set);
    counted(s, d, n, 14, Context::NamedMethodMap, size)
}
