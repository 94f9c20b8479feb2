// `as` stands between usize and u64, where Rust has no `From`.
use crate::header::{Header, Kind, UnknownKind};
use crate::records::Record;
use calls::Taken;
use reader::{Cursor, Refusal, Span, Text};
use std::{fmt, io};

// How many differences are printed; the others are only counted.
const SHOWN: u64 = 20;

// The records of a list so far, and how many times one of them differed.
// A plain derive would ask `P`, which is only lent, for the same.
#[derive_where(Clone, Copy)]
pub struct Tally<'a, P> {
    rt: &'a P,
    pub records: u64,
    pub differences: u64,
}

impl<P> fmt::Display for Tally<'_, P> {
    fn fmt<W: fmt::Write>(&self, f: &mut fmt::Formatter<W>) -> fmt::Result {
        write!(
            f,
            "{} records, {} differences",
            self.records, self.differences
        )
    }
}

impl<'a, P: Print> Tally<'a, P> {
    pub fn new(rt: &'a P) -> Tally<'a, P> {
        Tally {
            rt,
            records: 0,
            differences: 0,
        }
    }

    pub fn next_record(&mut self) {
        self.records = self.records.saturating_add(1);
    }

    // Counts and prints a difference, if it is one.
    pub fn hold(&mut self, what: &[u8], stored: u64, got: u64) -> io::Result<()> {
        if stored == got {
            return Ok(());
        }
        if self.differences < SHOWN {
            let rt = self.rt;
            let n = self.records;
            print!(rt; "record {n}: ")?;
            rt.write_all(what)?;
            println!(rt; ": stored {stored}, got {got}")?;
        }
        self.differences = self.differences.saturating_add(1);
        Ok(())
    }

    // Holds a record's status, count and first fields.
    fn hold_fields(
        &mut self,
        h: &Header,
        status: u64,
        count: usize,
        fields: &[(&str, u64)],
    ) -> io::Result<()> {
        self.hold(b"status", h.status, status)?;
        self.hold(b"count", h.count as u64, count as u64)?;
        for (stored, (what, got)) in h.fields.iter().zip(fields) {
            self.hold(what.as_bytes(), *stored, *got)?;
        }
        Ok(())
    }

    // Such a record is taken for a whole pack.
    pub fn hold_kind(&mut self, unknown: UnknownKind) -> io::Result<()> {
        self.hold(b"kind", u64::from(unknown.0), Kind::Whole as u64)
    }

    // Holds an answer against a record's status and fields.
    pub fn hold_answer(&mut self, h: &Header, answer: Result<Taken, Refusal>) -> io::Result<()> {
        match answer {
            Ok(
                Taken {
                    words,
                    bytes,
                    charged,
                    left,
                },
            ) => self.hold_fields(
                h,
                0,
                words,
                &[
                    ("words", words as u64),
                    ("bytes", bytes as u64),
                    ("charged", charged),
                    ("left", left),
                ],
            ),
            Err(r) => self.hold_refusal(h, r),
        }
    }

    pub fn hold_refusal(&mut self, h: &Header, r: Refusal) -> io::Result<()> {
        self.hold_fields(
            h,
            1,
            0,
            &[
                ("number", u64::from(r.kind)),
                ("c", r.context),
                ("d1", r.detail1),
                ("d2", r.detail2),
                ("place", r.place as u64),
                ("left", r.left),
            ],
        )
    }

    // Holds the position after a section call: past the bytes taken, with the budget left, or as it was given.
    pub fn hold_position(&mut self, h: &Header, place: usize, budget: u64) -> io::Result<()> {
        let given = h.place as u64;
        let (stored_place, stored_budget) = if h.status == 0 {
            (given.wrapping_add(h.fields[1]), h.fields[3])
        } else {
            (given, h.budget)
        };
        self.hold(b"place after it", stored_place, place as u64)?;
        self.hold(b"budget after it", stored_budget, budget)
    }

    pub fn hold_found(&mut self, h: &Header, found: Span) -> io::Result<()> {
        self.hold_fields(
            h,
            0,
            0,
            &[
                ("start", found.start as u64),
                ("length", found.length as u64),
            ],
        )
    }

    // The earlier name and the later one.
    pub fn hold_pair(&mut self, h: &Header, earlier: Span, later: Span) -> io::Result<()> {
        self.hold_fields(
            h,
            0,
            0,
            &[
                ("pair", 1),
                ("start", earlier.start as u64),
                ("length", earlier.length as u64),
                ("later start", later.start as u64),
                ("later length", later.length as u64),
            ],
        )
    }

    pub fn hold_no_pair(&mut self, h: &Header) -> io::Result<()> {
        self.hold_fields(h, 0, 0, &[("pair", 0)])
    }

    // The cursor is the one past the text.
    pub fn hold_text(&mut self, h: &Header, text: Text, c: Cursor) -> io::Result<()> {
        self.hold_fields(
            h,
            0,
            0,
            &[
                ("start", text.span.start as u64),
                ("length", text.span.length as u64),
                ("characters", text.characters as u64),
                ("place", c.place as u64),
                ("left", c.left),
            ],
        )
    }

    // Holds the tape that a record lends, filled before the call, against the record: its counted words, and that the
    // others are as they were.
    pub fn hold_tape(&mut self, record: Record, tape: &[u32]) -> io::Result<()> {
        let h = record.header;
        let count = h.count.min(tape.len());
        let counted = &tape[..count];
        let sum = u64::from(crate::sum_of(counted));
        self.hold(b"sum of the words", u64::from(h.sum), sum)?;
        let first = crate::first_written(tape, count);
        self.hold(
            b"first change past the words",
            tape.len() as u64,
            first as u64,
        )?;
        if h.words == 0 {
            return Ok(());
        }
        let (stored, _) = record.words.as_chunks::<4>();
        let first = crate::first_other(counted, stored);
        self.hold(b"first word that differs", count as u64, first as u64)
    }

    // Holds the payload that a lookup returned against the part of the pack that a record says; nothing where it is
    // refused.
    pub fn hold_payload(&mut self, record: Record, payload: &[u8]) -> io::Result<()> {
        let h = record.header;
        let got = payload.len() as u64;
        if h.status != 0 {
            return self.hold(b"payload's length", 0, got);
        }
        let pack = record.pack;
        let start = (h.fields[0] as usize).min(pack.len());
        let length = (h.fields[1] as usize).min(pack.len() - start);
        let stored = &pack[start..start + length];
        self.hold(b"payload's length", length as u64, got)?;
        let first = crate::first_differing(stored, payload);
        self.hold(
            b"first byte of the payload that differs",
            length as u64,
            first as u64,
        )
    }
}
