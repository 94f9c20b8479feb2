// Replays the lists of the oracle's answers that its arguments name: whole packs, section calls, lookups, texts alone, and
// names that print alike. Prints each difference, and a line for each list.
#![tactic(auto)]

use lent_sections::Position;
use std::fs::File;
use std::io::Read;
use std::rt::Files;
use std::{env, io};
use stored_answers::{Buffers, Header, Kind, Record, TAPE_WORDS, Tally};
use vob24_data::Section;

fn whole(tally: &mut Tally<impl Print>, record: Record, tape: &mut [u32]) -> io::Result<()> {
    stored_answers::fill(tape);
    let answer = pack::read(record.pack, record.header.budget, tape);
    tally.hold_answer(record.header, answer)?;
    tally.hold_tape(record, tape)
}

// The section that a record is about. A record numbers them from 1 on.
fn section_in(h: &Header) -> Section {
    match h.section {
        n @ 1..=16 => vob24_data::section_at(n - 1),
        _ => Section::InlineSources(h.functions),
    }
}

fn section(tally: &mut Tally<impl Print>, record: Record, tape: &mut [u32]) -> io::Result<()> {
    let h = record.header;
    stored_answers::fill(tape);
    let answer = sections::read_section(record.pack, section_in(h), h.place, h.budget, tape);
    tally.hold_answer(h, answer)?;
    tally.hold_tape(record, tape)
}

// The same by the call that is lent its position, through the function by value over it.
fn lent_section(tally: &mut Tally<impl Print>, record: Record, tape: &mut [u32]) -> io::Result<()> {
    let h = record.header;
    stored_answers::fill(tape);
    let position = Position {
        place: h.place,
        budget: h.budget,
    };
    let lent = lent_sections::read_section_at(record.pack, section_in(h), position, tape);
    tally.hold_answer(h, lent.answer)?;
    tally.hold_position(h, lent.next.place, lent.next.budget)?;
    tally.hold_tape(record, tape)
}

fn lookup(tally: &mut Tally<impl Print>, record: Record) -> io::Result<()> {
    let h = record.header;
    match pack::locate_artifact(record.pack, record.name) {
        Ok(found) => tally.hold_found(h, found)?,
        Err(r) => tally.hold_refusal(h, r)?,
    }
    tally.hold_payload(record, pack::find_artifact(record.pack, record.name))
}

// A text through the leaf, which alone says how many characters there are. The leaf requires what a call asks first.
fn text(tally: &mut Tally<impl Print>, record: Record) -> io::Result<()> {
    let h = record.header;
    let c = match calls::opening(record.pack, h.place, h.budget) {
        Ok(c) => c,
        Err(r) => return tally.hold_refusal(h, r),
    };
    match length_leaves::read_string(record.pack, c.place, c.left, c.at) {
        Ok((text, d)) => tally.hold_text(h, text, d),
        Err(r) => tally.hold_refusal(h, r),
    }
}

fn alike_names(tally: &mut Tally<impl Print>, record: Record) -> io::Result<()> {
    let h = record.header;
    match pack::alike_names(record.pack) {
        Ok(Some(pair)) => tally.hold_pair(h, pair.earlier, pair.later),
        Ok(None) => tally.hold_no_pair(h),
        Err(r) => tally.hold_refusal(h, r),
    }
}

fn replay_record(
    tally: &mut Tally<impl Print>,
    record: Record,
    tape: &mut [u32],
) -> io::Result<()> {
    match record.header.kind() {
        Ok(Kind::Whole) => whole(tally, record, tape),
        Ok(Kind::SectionCall) => {
            section(tally, record, tape)?;
            lent_section(tally, record, tape)
        }
        Ok(Kind::Lookup) => lookup(tally, record),
        Ok(Kind::Text) => text(tally, record),
        Ok(Kind::AlikeNames) => alike_names(tally, record),
        Err(unknown) => {
            tally.hold_kind(unknown)?;
            whole(tally, record, tape)
        }
    }
}

fn replay_list(
    rt: &(impl Print + Drop),
    file: &mut impl Read,
    path: &str,
    buffers: &mut Buffers,
    tape: &mut [u32; TAPE_WORDS],
) -> io::Result<()> {
    let mut tally = Tally::new(rt);
    // A proved loop has to end, and nothing says that a list does.
    for _ in 0..u64::MAX {
        match buffers.read_record(file, tally.records) {
            Ok(Some(mut header)) => {
                buffers.swap_edit(&mut header);
                let n = header.tape;
                replay_record(&mut tally, buffers.record(&header), &mut tape[..n])?;
                buffers.swap_edit(&mut header);
                tally.next_record();
            }
            Ok(None) => return println!(rt; "{path}: {tally}"),
            Err(broken) => return println!(rt; "{path}: {broken} after {} records", tally.records),
        }
    }
    Ok(())
}

fn replay_argument<R: Files + Print + Eprint + Drop>(rt: &R, path: &str) -> io::Result<()> {
    let mut file = match File::open(rt, path) {
        Ok(file) => file,
        Err(error) => return eprintln!(rt; "{path}: {error}"),
    };
    replay_list(
        rt,
        &mut file,
        path,
        &mut Buffers::new(),
        &mut [0; TAPE_WORDS],
    )
}

fn main(rt: HostRuntime) -> io::Result<()> {
    for path in env::args(&rt)?.skip(1) {
        replay_argument(&rt, path.as_str())?;
    }
    Ok(())
}
