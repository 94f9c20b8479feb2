// The cases of a select, which are the list of their metadata's record (crate metadata, SelectExecLayout).
// Ports SelectCaseLayout of bytecode.rs and its reading in serialize.rs, read_instruction_metadata_for_version.
// `as` stands where a number is known to fit a narrower type: a `TryFrom` would have a case that no caller meets.
#![tactic(auto)]

ghost use Rattle.std.specs.Prelude.{false};
ghost use Rattle.format.specs.Format.{counted};
ghost use Rattle.vob24.specs.Settings.{settings_of};
ghost use Rattle.reader.specs.Contract.{ReadyAt, NumberOf};
ghost use Rattle.reader.specs.Recorded.{RecordOf};
ghost use Rattle.select_case.specs.Records.{select_format, select_list, send_format, recv_format, send_of, recv_of, select_of};

use fields::{Bool, SelectTag, U16};
use lists::Entry;
use reader::{Cursor, Read, Step};
use vob24_data::{Settings, Size};

#[derive(Clone, Copy, PartialEq, Eq, Debug)]
pub enum SelectCase {
    Send {
        queue: u16,
        value: u16,
        elem_slots: u16,
    },
    Recv {
        destination: u16,
        queue: u16,
        elem_slots: u16,
        has_ok: bool,
    },
}

// queue, value, elem_slots
fn send(s: &[u8], c: Cursor, tape: &mut [u32]) -> Read<SelectCase>
    requires { ReadyAt s.now c }
    ensures { RecordOf send_format send_of s.now c tape.old result tape.new }
{
    let (queue, d) = fields::number::<U16>(s, c, tape)?;
    let (value, e) = fields::number::<U16>(s, d, tape)?;
    let (slots, f) = fields::number::<U16>(s, e, tape)?;
    Ok((
        SelectCase::Send {
            queue: queue as u16,
            value: value as u16,
            elem_slots: slots as u16,
        },
        f,
    ))
}

// destination, queue, elem_slots, has_ok
fn recv(s: &[u8], c: Cursor, tape: &mut [u32]) -> Read<SelectCase>
    requires { ReadyAt s.now c }
    ensures { RecordOf recv_format recv_of s.now c tape.old result tape.new }
{
    let (destination, d) = fields::number::<U16>(s, c, tape)?;
    let (queue, e) = fields::number::<U16>(s, d, tape)?;
    let (slots, f) = fields::number::<U16>(s, e, tape)?;
    let (ok, g) = fields::number::<Bool>(s, f, tape)?;
    Ok((
        SelectCase::Recv {
            destination: destination as u16,
            queue: queue as u16,
            elem_slots: slots as u16,
            has_ok: ok == 1,
        },
        g,
    ))
}

pub fn select_case(s: &[u8], c: Cursor, tape: &mut [u32]) -> Read<SelectCase>
    requires { ReadyAt s.now c }
    ensures { RecordOf select_format select_of s.now c tape.old result tape.new }
{
    let (tag, d) = fields::number::<SelectTag>(s, c, tape)?;
    if tag == 0 {
        return send(s, d, tape);
    }
    recv(s, d, tape)
}

struct Case;

impl Entry for Case {
    ghost format = { λ _. select_format };

    ghost again = { λ _. false };

    fn read(&self, s: &[u8], r: Step, tape: &mut [u32]) -> Step {
        let (_, d) = select_case(s, r?, tape)?;
        Ok(d)
    }
}

// Also returns the count. One call, under the list's name and contract: its entry stays private.
pub fn number_select_cases(s: &[u8], set: &Settings, c: Cursor, tape: &mut [u32]) -> Read<u64>
    requires { ReadyAt s.now c }
    ensures { NumberOf (select_list (settings_of set.now)) counted s.now c
        tape.old result tape.new }
{
    lists::number_list(s, set, c, Size::SelectCaseLayout, &Case, tape)
}
