// Instructions: the code of a function.
// Ports Instruction of instruction.rs and its reading by Module::deserialize of serialize.rs.
#![tactic(auto)]

ghost use Rattle.vob24.specs.Settings.{settings_of};
ghost use Rattle.std.specs.Prelude.{false};
ghost use Rattle.format.specs.Format.{counted};
ghost use Rattle.reader.specs.Contract.{ReadyAt, NumberOf};
ghost use Rattle.instruction.specs.Formats.{instruction_format, instruction_widths, sized_instruction, flat_instruction, instruction_list};

use fields::{U8, U16};
use lists::{Entry, Fixed, Rest};
use reader::{Cursor, Read, Step};
use vob24_data::{Settings, Size};

struct Instruction;

impl Entry for Instruction {
    ghost format = { λ _. instruction_format };

    ghost again = { λ _. false };

    // op, flags, a, b, c
    fn read(&self, s: &[u8], r: Step, tape: &mut [u32]) -> Step {
        let op = fields::field::<U8>(s, r, tape);
        let flags = fields::field::<U8>(s, op, tape);
        let a = fields::field::<U16>(s, flags, tape);
        let b = fields::field::<U16>(s, a, tape);
        fields::field::<U16>(s, b, tape)
    }

    fn run(&self, s: &[u8], c: Cursor, n: u64, tape: &mut [u32]) -> Rest {
        lists::copied_run(s, c, n, self, tape)
    }
}

impl Fixed for Instruction {
    ghost form = { λ _. instruction_format };

    ghost widths = { λ _. instruction_widths };

    const BYTES: usize = 8;

    const WORDS: usize = 5;

    ghost BYTES = { 8 };

    ghost WORDS = { 5 };

    ghost sized = { λ _. sized_instruction };

    ghost flat = { λ _. flat_instruction };

    fn put(&self, s: &[u8], p: usize, tape: &mut [u32], at: usize) {
        tape[at] = u32::from(s[p]);
        tape[at + 1] = u32::from(s[p + 1]);
        tape[at + 2] = lists::half(s, p + 2);
        tape[at + 3] = lists::half(s, p + 4);
        tape[at + 4] = lists::half(s, p + 6);
    }
}

// Also returns the count. One call, under the list's name and contract: its entry stays private.
pub fn number_instructions(s: &[u8], set: &Settings, c: Cursor, tape: &mut [u32]) -> Read<u64>
    requires { ReadyAt s.now c }
    ensures { NumberOf (instruction_list (settings_of set.now)) counted s.now c tape.old result tape.new }
{
    lists::number_list(s, set, c, Size::Instruction, &Instruction, tape)
}
