// Numbers that stand on the tape as one word: each by its leaf in the grammar and the leaf's reader.
ghost use Rattle.format.specs.Format.{Leaf, Width};
ghost use Rattle.vob24.specs.Refusals;
ghost use Rattle.vob24.specs.Leaves.{free, at_most, at_most_bare, packed_word};
ghost use Rattle.vob24.specs.Grammar.{metadata_tag};
ghost use Rattle.reader.specs.Contract.{ReadyAt};
ghost use Rattle.reader.specs.Leaves.{Answers, OneWord, one_fixed, one_packed, narrow_byte, narrow_half, narrow_word};

use reader::{Cursor, Kind, Read};

// Each `impl` names its leaf and the leaf's reader, so that all their methods are of one shape.
pub trait Word {
    ghost leaf: { Leaf };

    ghost one_word: { OneWord leaf };

    fn read(s: &[u8], c: Cursor) -> Read<u64>
        requires { ReadyAt s.now c }
        ensures { Answers leaf s.now c result };
}

pub struct U8;

impl Word for U8 {
    ghost leaf = { Leaf.fixed Width.byte free };

    ghost one_word = { one_fixed narrow_byte };

    fn read(s: &[u8], c: Cursor) -> Read<u64> {
        reader::read_u8(s, c)
    }
}

pub struct U16;

impl Word for U16 {
    ghost leaf = { Leaf.fixed Width.half free };

    ghost one_word = { one_fixed narrow_half };

    fn read(s: &[u8], c: Cursor) -> Read<u64> {
        reader::read_u16(s, c)
    }
}

// Also an i32: a signed number is its bits.
pub struct U32;

impl Word for U32 {
    ghost leaf = { Leaf.fixed Width.word free };

    ghost one_word = { one_fixed narrow_word };

    fn read(s: &[u8], c: Cursor) -> Read<u64> {
        reader::read_u32(s, c)
    }
}

pub struct Bool;

impl Word for Bool {
    ghost leaf = { Leaf.fixed Width.byte (at_most 1 Refusals.invalid_boolean) };

    ghost one_word = { one_fixed narrow_byte };

    fn read(s: &[u8], c: Cursor) -> Read<u64> {
        number_leaves::read_small(s, c, 1, Kind::InvalidBoolean)
    }
}

pub struct SlotType;

impl Word for SlotType {
    ghost leaf = { Leaf.fixed Width.byte (at_most 5 Refusals.invalid_slot_type) };

    ghost one_word = { one_fixed narrow_byte };

    fn read(s: &[u8], c: Cursor) -> Read<u64> {
        number_leaves::read_small(s, c, 5, Kind::InvalidSlotType)
    }
}

pub struct ValueKind;

impl Word for ValueKind {
    ghost leaf = { Leaf.fixed Width.byte (at_most 24 Refusals.invalid_value_kind) };

    ghost one_word = { one_fixed narrow_byte };

    fn read(s: &[u8], c: Cursor) -> Read<u64> {
        number_leaves::read_small(s, c, 24, Kind::InvalidValueKind)
    }
}

pub struct Direction;

impl Word for Direction {
    ghost leaf = { Leaf.fixed Width.byte (at_most 2 Refusals.invalid_chan_dir) };

    ghost one_word = { one_fixed narrow_byte };

    fn read(s: &[u8], c: Cursor) -> Read<u64> {
        number_leaves::read_small(s, c, 2, Kind::InvalidChanDir)
    }
}

pub struct ValueMeta;

impl Word for ValueMeta {
    ghost leaf = { Leaf.fixed Width.word (packed_word Refusals.invalid_packed_value_meta) };

    ghost one_word = { one_fixed narrow_word };

    fn read(s: &[u8], c: Cursor) -> Read<u64> {
        number_leaves::read_packed_word(s, c, Kind::InvalidPackedValueMeta)
    }
}

pub struct ValueRttid;

impl Word for ValueRttid {
    ghost leaf = { Leaf.fixed Width.word (packed_word Refusals.invalid_packed_value_rttid) };

    ghost one_word = { one_fixed narrow_word };

    fn read(s: &[u8], c: Cursor) -> Read<u64> {
        number_leaves::read_packed_word(s, c, Kind::InvalidPackedValueRttid)
    }
}

pub struct SourceU32;

impl Word for SourceU32 {
    ghost leaf = { Leaf.packed };

    ghost one_word = { one_packed };

    fn read(s: &[u8], c: Cursor) -> Read<u64> {
        number_leaves::read_source_u32(s, c)
    }
}

pub struct AssertKind;

impl Word for AssertKind {
    ghost leaf = { Leaf.fixed Width.byte (at_most_bare 1 Refusals.invalid_instruction_metadata) };

    ghost one_word = { one_fixed narrow_byte };

    fn read(s: &[u8], c: Cursor) -> Read<u64> {
        number_leaves::read_bare(s, c, 1, Kind::InvalidInstructionMetadata)
    }
}

pub struct RuntimeTag;

impl Word for RuntimeTag {
    ghost leaf = { Leaf.fixed Width.byte (at_most 12 Refusals.invalid_runtime_type) };

    ghost one_word = { one_fixed narrow_byte };

    fn read(s: &[u8], c: Cursor) -> Read<u64> {
        number_leaves::read_small(s, c, 12, Kind::InvalidRuntimeType)
    }
}

pub struct ConstantTag;

impl Word for ConstantTag {
    ghost leaf = { Leaf.fixed Width.byte (at_most_bare 4 Refusals.invalid_constant) };

    ghost one_word = { one_fixed narrow_byte };

    fn read(s: &[u8], c: Cursor) -> Read<u64> {
        number_leaves::read_bare(s, c, 4, Kind::InvalidConstant)
    }
}

pub struct SelectTag;

impl Word for SelectTag {
    ghost leaf = { Leaf.fixed Width.byte (at_most_bare 1 Refusals.invalid_instruction_metadata) };

    ghost one_word = { one_fixed narrow_byte };

    fn read(s: &[u8], c: Cursor) -> Read<u64> {
        number_leaves::read_bare(s, c, 1, Kind::InvalidInstructionMetadata)
    }
}

pub struct MetadataTag;

impl Word for MetadataTag {
    ghost leaf = { Leaf.fixed Width.byte metadata_tag };

    ghost one_word = { one_fixed narrow_byte };

    fn read(s: &[u8], c: Cursor) -> Read<u64> {
        number_leaves::read_metadata_tag(s, c)
    }
}
