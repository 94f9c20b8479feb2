use crate::header::{self, Header, NAME_BYTES, PACK_BYTES, STORED_WORDS_BYTES};
use std::error::Error;
use std::io::Read;
use std::{fmt, io};

// What a list that is no list of records, or ends too soon, is refused with.
#[derive(Debug, Drop)]
pub struct Broken;

impl From<io::Error> for Broken {
    fn from(_e: io::Error) -> Broken {
        Broken
    }
}

impl fmt::Display for Broken {
    fn fmt<W: fmt::Write>(&self, f: &mut fmt::Formatter<W>) -> fmt::Result {
        write!(f, "malformed or cut short")
    }
}

impl Error for Broken {}

// What follows the records' headers, each part at its buffer's start. A record may take the pack that stands there.
#[derive(Drop)]
pub struct Buffers {
    pack: [u8; PACK_BYTES],
    name: [u8; NAME_BYTES],
    words: [u8; STORED_WORDS_BYTES],
}

#[derive(Clone, Copy)]
pub struct Record<'a> {
    pub header: &'a Header,
    pub pack: &'a [u8],
    pub name: &'a [u8],
    pub(crate) words: &'a [u8],
}

impl Buffers {
    pub fn new() -> Buffers {
        Buffers {
            pack: [0; PACK_BYTES],
            name: [0; NAME_BYTES],
            words: [0; STORED_WORDS_BYTES],
        }
    }

    // Reads the next record of a list, after so many: its header, and to the buffers what follows that. At the list's
    // end there is none; the end says how many records came before it, and nothing follows it.
    pub fn read_record(
        &mut self,
        file: &mut impl Read,
        records: u64,
    ) -> Result<Option<Header>, Broken> {
        // An array, as nothing here takes from a heap.
        let mut bytes = [0; 128];
        file.read_exact(&mut bytes)?;
        if header::number(&bytes, header::KIND) == 0 {
            let counted = u64::from(header::number(&bytes, header::STORED));
            return if counted == records && is_at_end(file) {
                Ok(None)
            } else {
                Err(Broken)
            };
        }
        let header = Header::try_from(&bytes)?;
        file.read_exact(&mut self.pack[..header.stored])?;
        file.read_exact(&mut self.name[..header.name])?;
        file.read_exact(&mut self.words[..header.words * 4])?;
        Ok(Some(header))
    }

    // Puts a record's edit into the pack, and into the header what stood there: a second call takes the edit back.
    pub fn swap_edit(&mut self, header: &mut Header) {
        let n = header.edit_length;
        let at = header.edit_at;
        // By a copy: a field beside ghost fields can't be lent as a slice yet.
        let mut edit = header.edit;
        edit[..n].swap_with_slice(&mut self.pack[at..at + n]);
        header.edit = edit;
    }

    pub fn record<'a>(&'a self, header: &'a Header) -> Record<'a> {
        Record {
            header,
            pack: &self.pack[..header.length],
            name: &self.name[..header.name],
            words: &self.words[..header.words * 4],
        }
    }
}

fn is_at_end(file: &mut impl Read) -> bool {
    // One byte is asked for, to see that there is none.
    let mut one = [0];
    file.read(&mut one).is_ok_and(|n| n == 0)
}
