// Value kinds and a channel's directions, by the Rust's names and numbers.
// `as` of an enum gives its number.
ghost use Rattle.std.specs.Prelude.{◌≡◌, ◌≤◌};
ghost use Rattle.runtime_type.specs.Numbered.{kind_at, dir_at, value_kind_number, direction_number};

#[derive(Clone, Copy, PartialEq, Eq, Debug)]
pub enum ValueKind {
    Void = 0,
    Bool = 1,
    Int = 2,
    Int8 = 3,
    Int16 = 4,
    Int32 = 5,
    Int64 = 6,
    Uint = 7,
    Uint8 = 8,
    Uint16 = 9,
    Uint32 = 10,
    Uint64 = 11,
    Float32 = 12,
    Float64 = 13,
    Array = 14,
    Struct = 15,
    Interface = 16,
    String = 17,
    Slice = 18,
    Map = 19,
    Channel = 20,
    Closure = 21,
    Pointer = 22,
    Port = 23,
    Island = 24,
}

impl From<ValueKind> for u8 {
    ghost from_gives = { λ kind n. n ≡ value_kind_number kind };

    fn from(kind: ValueKind) -> u8 {
        kind as u8
    }
}

#[derive(Clone, Copy, PartialEq, Eq, Debug)]
pub enum ChanDir {
    Both = 0,
    Send = 1,
    Recv = 2,
}

impl From<ChanDir> for u8 {
    ghost from_gives = { λ dir n. n ≡ direction_number dir };

    fn from(dir: ChanDir) -> u8 {
        dir as u8
    }
}

// The kind of a number that has passed its rule. No `TryFrom`: its `Err` would be a case that no caller can meet.
pub(crate) fn value_kind(n: u64) -> ValueKind
    ensures named { result ≡ kind_at n }
    ensures numbered { n ≤ 24 → value_kind_number result ≡ n }
{
    match n {
        0 => ValueKind::Void,
        1 => ValueKind::Bool,
        2 => ValueKind::Int,
        3 => ValueKind::Int8,
        4 => ValueKind::Int16,
        5 => ValueKind::Int32,
        6 => ValueKind::Int64,
        7 => ValueKind::Uint,
        8 => ValueKind::Uint8,
        9 => ValueKind::Uint16,
        10 => ValueKind::Uint32,
        11 => ValueKind::Uint64,
        12 => ValueKind::Float32,
        13 => ValueKind::Float64,
        14 => ValueKind::Array,
        15 => ValueKind::Struct,
        16 => ValueKind::Interface,
        17 => ValueKind::String,
        18 => ValueKind::Slice,
        19 => ValueKind::Map,
        20 => ValueKind::Channel,
        21 => ValueKind::Closure,
        22 => ValueKind::Pointer,
        23 => ValueKind::Port,
        _ => ValueKind::Island,
    }
}

// The same of a direction.
pub(crate) fn chan_dir(n: u64) -> ChanDir
    ensures named { result ≡ dir_at n }
    ensures numbered { n ≤ 2 → direction_number result ≡ n }
{
    match n {
        0 => ChanDir::Both,
        1 => ChanDir::Send,
        _ => ChanDir::Recv,
    }
}
