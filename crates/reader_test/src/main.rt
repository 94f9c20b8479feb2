// Runs document 01's marked cases through the leaves. A line says what was taken, for a text how many characters, or
// the refusal's number; then the place.
// `as` stands between usize and u64, where Rust has no `From`.
#![tactic(auto)]

ghost use Rattle.std.specs.Prelude.{◌≤◌, length};

use reader::{Cursor, Kind, Read};
use std::io;

// More than any case here.
const MOST: usize = 16;

const START: Cursor = Cursor {
    place: 0,
    left: 16,
    at: 0,
};

fn line(rt: &impl Print, read: Read<u64>) -> io::Result<()> {
    match read {
        Ok((n, d)) => println!(rt; "taken {n} {}", d.place),
        Err(x) => println!(rt; "refused {} {}", u64::from(x.kind), x.place),
    }
}

fn packed(rt: &impl Print, s: &[u8]) -> io::Result<()>
    requires { length s.now ≤ MOST }
{
    line(rt, number_leaves::read_source_u32(s, START))
}

fn value_meta(rt: &impl Print, s: &[u8]) -> io::Result<()>
    requires { length s.now ≤ MOST }
{
    line(
        rt,
        number_leaves::read_packed_word(s, START, Kind::InvalidPackedValueMeta),
    )
}

// The text stands after its length word.
fn text(rt: &impl Print, s: &[u8]) -> io::Result<()>
    requires { length s.now ≤ MOST }
{
    let read = length_leaves::read_string(s, START.place, START.left, START.at);
    line(rt, read.map(|(text, d)| (text.characters as u64, d)))
}

fn main(rt: HostRuntime) -> io::Result<()> {
    packed(&rt, b"\x00")?;
    packed(&rt, b"\x80\x01")?;
    packed(&rt, b"\xff\xff\xff\xff\x0f")?;
    packed(&rt, b"\xff\xff\xff\xff\x10")?;
    packed(&rt, b"\x80\x00")?;
    packed(&rt, b"\x80")?;
    text(&rt, b"\x02\x00\x00\x00\xc3\xa9")?;
    text(&rt, b"\x03\x00\x00\x00\x65\xcc\x81")?;
    text(&rt, b"\x04\x00\x00\x00\xf4\x8f\xbf\xbf")?;
    text(&rt, b"\x02\x00\x00\x00\xc0\x80")?;
    text(&rt, b"\x03\x00\x00\x00\xed\xa0\x80")?;
    text(&rt, b"\x04\x00\x00\x00\xf4\x90\x80\x80")?;
    value_meta(&rt, b"\x19\xff\xff\xff")?;
    value_meta(&rt, b"\x18\xff\xff\xff")
}
