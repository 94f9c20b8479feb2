// The constants of a module. A constant is answered as an enum, a text as its start and length in the pack.
// Ports Constant of bytecode.rs and its reading by Module::deserialize of serialize.rs.
#![tactic(auto)]

ghost use Rattle.vob24.specs.Settings.{settings_of};
ghost use Rattle.std.specs.Prelude.{false};
ghost use Rattle.vob24.specs.Leaves.{u64, bool, str};
ghost use Rattle.reader.specs.Contract.{Ready, ReadyAt, Reader};
ghost use Rattle.reader.specs.Recorded.{RecordOf};
ghost use Rattle.constants.specs.Constants.{constant_format, constant_list, bool_of, int_of, float_of, text_of, constant_of};

use answers::Constant;
use fields::{Bool, ConstantTag};
use lists::Entry;
use reader::{Bits, Cursor, Read, Step};
use vob24_data::{Settings, Size};

pub mod answers;

fn constant_bool(s: &[u8], c: Cursor, tape: &mut [u32]) -> Read<Constant>
    requires { ReadyAt s.now c }
    ensures { RecordOf bool (λ p v. bool_of v) s.now c tape.old result tape.new }
{
    let (n, d) = fields::number::<Bool>(s, c, tape)?;
    Ok((Constant::Bool(n == 1), d))
}

// The words of an Int or a Float are those of its bits. Each has a leaf's reader and a constructor of its own.
fn constant_int(s: &[u8], c: Cursor, tape: &mut [u32]) -> Read<Constant>
    requires { ReadyAt s.now c }
    ensures { RecordOf u64 (λ p v. int_of v) s.now c tape.old result tape.new }
{
    let (Bits { value, bits }, d) = reader::read_i64(s, c)?;
    Ok((Constant::Int(value), reader::keep_long(d, bits, tape)))
}

// As `constant_int`, but for the reader and the constructor.
fn constant_float(s: &[u8], c: Cursor, tape: &mut [u32]) -> Read<Constant>
    requires { ReadyAt s.now c }
    ensures { RecordOf u64 (λ p v. float_of v) s.now c tape.old result tape.new }
{
    let (Bits { value, bits }, d) = reader::read_f64(s, c)?;
    Ok((Constant::Float(value), reader::keep_long(d, bits, tape)))
}

fn constant_text(s: &[u8], c: Cursor, tape: &mut [u32]) -> Read<Constant>
    requires { ReadyAt s.now c }
    ensures { RecordOf str (λ p v. text_of v) s.now c tape.old result tape.new }
{
    let (span, d) = fields::span_str(s, c, tape)?;
    Ok((Constant::Text(span), d))
}

// A `match`, as the arms are calls of different contracts: a closure's type would have to say each.
pub fn constant(s: &[u8], c: Cursor, tape: &mut [u32]) -> Read<Constant>
    requires { ReadyAt s.now c }
    ensures { RecordOf constant_format constant_of s.now c tape.old result tape.new }
{
    let (tag, d) = fields::number::<ConstantTag>(s, c, tape)?;
    match tag {
        0 => Ok((Constant::Nil, d)),
        1 => constant_bool(s, d, tape),
        2 => constant_int(s, d, tape),
        3 => constant_float(s, d, tape),
        _ => constant_text(s, d, tape),
    }
}

// A constant of the list: its words alone.
struct Item;

impl Entry for Item {
    ghost format = { λ _. constant_format };

    ghost again = { λ _. false };

    fn read(&self, s: &[u8], r: Step, tape: &mut [u32]) -> Step {
        let (_, d) = constant(s, r?, tape)?;
        Ok(d)
    }
}

// One call, under the section's name and contract: its entry stays private.
pub fn constants(s: &[u8], set: &Settings, r: Step, tape: &mut [u32]) -> Step
    requires { Ready s.now r }
    ensures { Reader (constant_list (settings_of set.now)) s.now r tape.old result
        tape.new }
{
    lists::read_list(s, set, r, Size::Constant, &Item, tape)
}
