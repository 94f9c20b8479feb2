// `as` stands between usize and u64, where Rust has no `From`, and where a number is known to fit a narrower type.
ghost use Rattle.std.specs.Prelude.{◌+◌, ◌<◌, ◌≤◌, ◌≡◌, length, take, drop};
ghost use Rattle.std.specs.Int.{w32, from_le_bytes};
ghost use Rattle.stored_answers.specs.declared.header.TheConstants.{PACK_BYTES, NAME_BYTES, TAPE_WORDS};

use crate::records::Broken;

// Kinds of records.
#[derive(Clone, Copy, PartialEq, Eq, Debug)]
pub enum Kind {
    Whole = 1,
    SectionCall = 2,
    Lookup = 3,
    Text = 4,
    AlikeNames = 5,
}

#[derive(Clone, Copy, PartialEq, Eq, Debug)]
pub struct UnknownKind(pub u32);

impl TryFrom<u32> for Kind {
    type Error = UnknownKind;

    fn try_from(kind: u32) -> Result<Kind, UnknownKind> {
        match kind {
            1 => Ok(Kind::Whole),
            2 => Ok(Kind::SectionCall),
            3 => Ok(Kind::Lookup),
            4 => Ok(Kind::Text),
            5 => Ok(Kind::AlikeNames),
            _ => Err(UnknownKind(kind)),
        }
    }
}

// Offsets in a header: the format of the lists.
pub(crate) const KIND: usize = 0;

pub(crate) const STORED: usize = 4;

const LENGTH: usize = 8;

const EDIT_AT: usize = 12;

const EDIT_LENGTH: usize = 16;

const EDIT_BYTES: usize = 20;

const SECTION: usize = 24;

const TAPE: usize = 28;

const NAME: usize = 32;

const WORDS: usize = 36;

const COUNT: usize = 40;

const SUM: usize = 44;

const BUDGET: usize = 48;

const PLACE: usize = 56;

const FUNCTIONS: usize = 64;

const STATUS: usize = 72;

const FIELDS: usize = 80;

const LAST_SECTION: usize = 17;

// The most that a record may have.
pub(crate) const PACK_BYTES: usize = 65536;

pub(crate) const NAME_BYTES: usize = 129;

pub const TAPE_WORDS: usize = 65536;

pub(crate) const STORED_WORDS_BYTES: usize = 262144;

// A header whose numbers are consistent.
#[derive(Clone, Copy)]
pub struct Header {
    kind: u32,
    pub(crate) stored: usize,
    pub(crate) length: usize,
    pub(crate) edit_at: usize,
    pub(crate) edit_length: usize,
    pub(crate) edit: [u8; 4],
    pub section: usize,
    // The length of the tape that is lent.
    pub tape: usize,
    pub(crate) name: usize,
    pub(crate) words: usize,
    pub(crate) count: usize,
    pub(crate) sum: u32,
    pub budget: u64,
    pub place: usize,
    pub functions: u64,
    pub(crate) status: u64,
    pub(crate) fields: [u64; 6],
    ghost stored_fits: { stored ≤ PACK_BYTES },
    ghost pack_fits: { length ≤ PACK_BYTES },
    ghost edit_is_short: { edit_length ≤ 4 },
    ghost edit_fits: { edit_at + edit_length ≤ length },
    pub ghost tape_fits: { tape ≤ TAPE_WORDS },
    ghost name_fits: { name ≤ NAME_BYTES },
    ghost words_fit: { words ≤ count },
    ghost count_fits: { count ≤ tape },
}

impl Header {
    pub fn kind(&self) -> Result<Kind, UnknownKind> {
        Kind::try_from(self.kind)
    }
}

// The number in the four bytes from `at` on; 0 where they are not all there.
pub fn number(b: &[u8], at: usize) -> u32
    ensures there { at + 4 ≤ length b.now → result ≡ from_le_bytes w32 (take 4 (drop at b.now)) }
    ensures missing { length b.now < at + 4 → result ≡ 0 }
{
    let Some(rest) = b.get(at..) else {
        return 0;
    };
    let Some(bytes) = rest.first_chunk::<4>() else {
        return 0;
    };
    u32::from_le_bytes(*bytes)
}

fn size(h: &[u8], at: usize) -> usize
    ensures { result < 4294967296 }
{
    number(h, at) as usize
}

// The number in a header's eight bytes from `at` on.
pub fn long(h: &[u8], at: usize) -> u64
    requires { at < 128 }
{
    u64::from(number(h, at)) + u64::from(number(h, at + 4)) * 0x1_0000_0000
}

impl TryFrom<&[u8; 128]> for Header {
    type Error = Broken;

    fn try_from(h: &[u8; 128]) -> Result<Header, Broken> {
        let kind = number(h, KIND);
        let stored = size(h, STORED);
        let length = size(h, LENGTH);
        let edit_at = size(h, EDIT_AT);
        let edit_length = size(h, EDIT_LENGTH);
        let section = size(h, SECTION);
        let tape = size(h, TAPE);
        let name = size(h, NAME);
        let words = size(h, WORDS);
        let count = size(h, COUNT);
        if (kind == Kind::SectionCall as u32) != (section != 0) || section > LAST_SECTION {
            return Err(Broken);
        }
        if stored > PACK_BYTES || length > PACK_BYTES || name > NAME_BYTES || tape > TAPE_WORDS {
            return Err(Broken);
        }
        if edit_length > 4 || edit_at + edit_length > length {
            return Err(Broken);
        }
        if count > tape || (words != 0 && words != count) {
            return Err(Broken);
        }
        Ok(Header {
            kind,
            stored,
            length,
            edit_at,
            edit_length,
            edit: [
                h[EDIT_BYTES],
                h[EDIT_BYTES + 1],
                h[EDIT_BYTES + 2],
                h[EDIT_BYTES + 3],
            ],
            section,
            tape,
            name,
            words,
            count,
            sum: number(h, SUM),
            budget: long(h, BUDGET),
            place: long(h, PLACE) as usize,
            functions: long(h, FUNCTIONS),
            status: long(h, STATUS),
            fields: [
                long(h, FIELDS),
                long(h, FIELDS + 8),
                long(h, FIELDS + 16),
                long(h, FIELDS + 24),
                long(h, FIELDS + 32),
                long(h, FIELDS + 40),
            ],
        })
    }
}
