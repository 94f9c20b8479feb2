// The functions section: each function's head, returns, traits, slot types, code, captures and parameters.
// Ports FunctionDef of bytecode.rs and its reading in serialize.rs. Transfer words are judged after their whole list,
// the slot count last of all. The list also returns the number of functions, which limits the inline sources.
// `as` of an enum gives its number.
#![tactic(auto)]

ghost use Rattle.std.specs.Prelude.{Bool, false, ◌<◌};
ghost use Rattle.vob24.specs.Settings.{settings_of};
ghost use Rattle.format.specs.Format.{counted};
ghost use Rattle.reader.specs.Contract.{Ready, ReadyAt, Reader, NumberOf};
ghost use Rattle.reader.specs.Numbers.{part_number};
ghost use Rattle.functions.specs.Formats.{code_format, transfer_format, transfer_types, function_head, function_returns, function_traits, function_body, function_slots, function_format, function_list};

use fields::{U16, U32};
use lists::Entry;
use reader::{Cursor, Kind, Part, Read, Refusal, Step};
use vob24_data::{Settings, Size};

// ---- code

// code, instruction_metadata; then 15 unless they are as many
fn code(s: &[u8], set: &Settings, r: Step, tape: &mut [u32]) -> Step
    requires { Ready s.now r }
    ensures { Reader (code_format (settings_of set.now)) s.now r tape.old result
        tape.new }
{
    let (instructions, d) = instruction::number_instructions(s, set, r?, tape)?;
    let (metadata, e) = metadata::number_instruction_metadata(s, set, d, tape)?;
    if metadata != instructions {
        return Err(reader::refuse(e, Kind::InvalidInstructionMetadata, 0));
    }
    Ok(e)
}

// ---- transfer types

struct TransferType;

impl Entry for TransferType {
    ghost format = { λ _. transfer_format };

    ghost again = { λ _. false };

    // meta_raw, rttid_raw, slots
    fn read(&self, s: &[u8], r: Step, tape: &mut [u32]) -> Step {
        let meta = fields::field::<U32>(s, r, tape);
        let rttid = fields::field::<U32>(s, meta, tape);
        fields::field::<U16>(s, rttid, tape)
    }
}

// Captures or parameters; the part is that of the meta word. Inlined for speed, as measured: docs/CHANGES.md, "The design
// pass".
#[inline(always)]
fn transfer_types(s: &[u8], set: &Settings, r: Step, part: Part, tape: &mut [u32]) -> Step
    requires ready { Ready s.now r }
    requires low { part_number part < 4 }
    ensures { Reader (transfer_types (settings_of set.now) (part_number part)) s.now r tape.old result
        tape.new }
{
    let list = lists::read_list(s, set, r, Size::TransferType, &TransferType, tape);
    transfers::transfer_words(s, part, r, list)
}

// ---- functions

// name, param_count, param_slots
fn function_head(s: &[u8], r: Step, tape: &mut [u32]) -> Step
    requires { Ready s.now r }
    ensures { Reader function_head s.now r tape.old result tape.new }
{
    let name = fields::field_str(s, r, tape);
    let param_count = fields::field::<U16>(s, name, tape);
    fields::field::<U16>(s, param_count, tape)
}

// ret_slots, ret_slot_types, recv_slots, heap_ret_gcref_count, heap_ret_gcref_start, heap_ret_slots
fn function_returns(s: &[u8], set: &Settings, r: Step, tape: &mut [u32]) -> Step
    requires { Ready s.now r }
    ensures { Reader (function_returns (settings_of set.now)) s.now r tape.old result
        tape.new }
{
    let ret_slots = fields::field::<U16>(s, r, tape);
    let ret_slot_types = slots::slot_types(s, set, ret_slots, tape);
    let recv_slots = fields::field::<U16>(s, ret_slot_types, tape);
    let gcref_count = fields::field::<U16>(s, recv_slots, tape);
    let gcref_start = fields::field::<U16>(s, gcref_count, tape);
    lists::read_list(s, set, gcref_start, Size::U16, &U16, tape)
}

// is_closure, error_ret_slot, has_defer
fn function_traits(s: &[u8], r: Step, tape: &mut [u32]) -> Step
    requires { Ready s.now r }
    ensures { Reader function_traits s.now r tape.old result tape.new }
{
    let is_closure = fields::field::<fields::Bool>(s, r, tape);
    let error_ret_slot = fields::field::<U32>(s, is_closure, tape);
    fields::field::<fields::Bool>(s, error_ret_slot, tape)
}

// code, instruction_metadata, capture_types, capture_slot_types, param_types; then 20 unless there are as many slot
// types as local slots
fn function_body(
    s: &[u8],
    set: &Settings,
    r: Step,
    types: u64,
    locals: u64,
    tape: &mut [u32],
) -> Step
    requires { Ready s.now r }
    ensures { Reader (function_body (settings_of set.now) types locals) s.now r
        tape.old result tape.new }
{
    let code = code(s, set, r, tape);
    let captures = transfer_types(s, set, code, Part::CaptureMeta, tape);
    let capture_slot_types = slots::slot_types(s, set, captures, tape);
    let params = transfer_types(s, set, capture_slot_types, Part::ParameterMeta, tape);
    let c = params?;
    if types != locals {
        return Err(Refusal {
            kind: Kind::InvalidFunctionMetadata,
            context: Part::SlotCount as u64,
            detail1: types,
            detail2: locals,
            place: c.place,
            left: c.left,
        });
    }
    Ok(c)
}

// slot_types, and the body
fn function_slots(s: &[u8], set: &Settings, r: Step, locals: u64, tape: &mut [u32]) -> Step
    requires { Ready s.now r }
    ensures { Reader (function_slots (settings_of set.now) locals) s.now r
        tape.old result tape.new }
{
    let (types, d) = slots::number_slot_types(s, set, r?, tape)?;
    function_body(s, set, Ok(d), types, locals, tape)
}

#[derive(Drop)]
struct Function<'a> {
    set: &'a Settings,
}

impl Entry for Function<'_> {
    ghost format = { λ x. function_format (settings_of x.set.now) };

    ghost again = { λ _. false };

    // local_slots comes after the head
    fn read(&self, s: &[u8], r: Step, tape: &mut [u32]) -> Step {
        let head = function_head(s, r, tape);
        let (locals, d) = fields::number::<U16>(s, head?, tape)?;
        let returns = function_returns(s, self.set, Ok(d), tape);
        let traits = function_traits(s, returns, tape);
        function_slots(s, self.set, traits, locals, tape)
    }
}

// Also returns the count.
pub fn number_functions(s: &[u8], set: &Settings, c: Cursor, tape: &mut [u32]) -> Read<u64>
    requires { ReadyAt s.now c }
    ensures { NumberOf (function_list (settings_of set.now)) counted s.now c
        tape.old result tape.new }
{
    lists::number_list(s, set, c, Size::FunctionDef, &Function { set }, tape)
}

pub fn functions(s: &[u8], set: &Settings, r: Step, tape: &mut [u32]) -> Step
    requires { Ready s.now r }
    ensures { Reader (function_list (settings_of set.now)) s.now r tape.old result
        tape.new }
{
    let (_, d) = number_functions(s, set, r?, tape)?;
    Ok(d)
}
