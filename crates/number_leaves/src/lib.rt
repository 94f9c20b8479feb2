// Leaves that judge a number by a rule, packed numbers, and the file's marks.
// Ports the methods of `impl ByteReader` in serialize.rs that judge what they read.
// `as` stands where a number is known to fit a narrower type: a `TryFrom` would have a case that no caller meets.
#![tactic(auto)]

ghost use Rattle.format.specs.Format.{Leaf, Width};
ghost use Rattle.vob24.specs.Leaves.{at_most, at_most_bare, packed_word, magic_mark, version_mark};
ghost use Rattle.vob24.specs.Grammar.{metadata_tag};
ghost use Rattle.reader.specs.Numbers.{kind_number};
ghost use Rattle.reader.specs.Contract.{ReadyAt};
ghost use Rattle.reader.specs.Leaves.{Answers, Marks};

use reader::{Cursor, Kind, Read, Step};

// ---- numbers judged by a rule

// A byte at most `most`, else `kind` with the byte.
pub fn read_small(s: &[u8], c: Cursor, most: u64, kind: Kind) -> Read<u64>
    requires { ReadyAt s.now c }
    ensures { Answers (Leaf.fixed Width.byte (at_most most (kind_number kind))) s.now c result }
{
    let (n, d) = reader::read_u8(s, c)?;
    if most < n {
        return Err(reader::refuse(d, kind, n));
    }
    Ok((n, d))
}

// The same, and the refusal does not show the byte. Two functions: with a flag the contract would choose its rule by it.
pub fn read_bare(s: &[u8], c: Cursor, most: u64, kind: Kind) -> Read<u64>
    requires { ReadyAt s.now c }
    ensures { Answers (Leaf.fixed Width.byte (at_most_bare most (kind_number kind))) s.now c result }
{
    let (n, d) = reader::read_u8(s, c)?;
    if most < n {
        return Err(reader::refuse(d, kind, 0));
    }
    Ok((n, d))
}

// The tag of an instruction's metadata: 6, 7 and 8 are not in use.
pub fn read_metadata_tag(s: &[u8], c: Cursor) -> Read<u64>
    requires { ReadyAt s.now c }
    ensures { Answers (Leaf.fixed Width.byte metadata_tag) s.now c result }
{
    let (n, d) = reader::read_u8(s, c)?;
    match n {
        0..=5 | 9..=18 => Ok((n, d)),
        _ => Err(reader::refuse(d, Kind::InvalidInstructionMetadata, 0)),
    }
}

// A packed word: a kind in the low byte, else 9; then an id above it, else `invalid`.
pub fn read_packed_word(s: &[u8], c: Cursor, invalid: Kind) -> Read<u64>
    requires { ReadyAt s.now c }
    ensures { Answers (Leaf.fixed Width.word (packed_word (kind_number invalid))) s.now c result }
{
    let (n, d) = reader::read_u32(s, c)?;
    let kind = n % 256;
    if 24 < kind {
        return Err(reader::refuse(d, Kind::InvalidValueKind, kind));
    }
    if 0xff_ffff <= n / 256 {
        return Err(reader::refuse(d, invalid, n));
    }
    Ok((n, d))
}

// ---- packed numbers

pub fn read_source_u32(s: &[u8], c: Cursor) -> Read<u64>
    requires { ReadyAt s.now c }
    ensures { Answers Leaf.packed s.now c result }
{
    let mut d = c;
    let mut value: u32 = 0;
    for i in 0u32..5 {
        let (byte, e) = reader::read_u8(s, d)?;
        d = e;
        if i == 4 {
            if 0x0f < byte {
                return Err(reader::refuse(d, Kind::InvalidSourceInteger, 0));
            }
        }
        value |= ((byte & 0x7f) as u32) << (7 * i);
        if byte < 0x80 {
            if i != 0 {
                if byte == 0 {
                    return Err(reader::refuse(d, Kind::InvalidSourceInteger, 0));
                }
            }
            return Ok((u64::from(value), d));
        }
    }
    Err(reader::refuse(d, Kind::InvalidSourceInteger, 0))
}

// ---- marks

pub fn read_magic(s: &[u8], c: Cursor) -> Step
    requires { ReadyAt s.now c }
    ensures { Marks magic_mark s.now c result }
{
    let (mark, d) = reader::fetch::<3>(s, c)?;
    if mark == *b"VOB" {
        return Ok(d);
    }
    Err(reader::refuse(d, Kind::InvalidMagic, 0))
}

pub fn read_version(s: &[u8], c: Cursor) -> Step
    requires { ReadyAt s.now c }
    ensures { Marks version_mark s.now c result }
{
    let (n, d) = reader::read_u32(s, c)?;
    if n != 24 {
        return Err(reader::refuse(d, Kind::UnsupportedVersion, n));
    }
    Ok(d)
}
