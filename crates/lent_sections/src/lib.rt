// The section call that is lent its place and budget and advances them, over the section call by value.
// The Rust has no such call; its ByteReader does the same with pos and allocation_remaining.
#![tactic(auto)]

ghost use Rattle.vob24_data.specs.Sections.{section_of, functions_of};
ghost use Rattle.position.specs.Contract.{LentCall};

use calls::Taken;
pub use position::Position;
use reader::Refusal;
use vob24_data::Section;

// An answer, and the position after it.
#[derive(Clone, Copy)]
pub struct Lent {
    pub answer: Result<Taken, Refusal>,
    pub next: Position,
}

fn step(pack: &[u8], section: Section, from: Position, tape: &mut [u32]) -> Lent
    ensures { LentCall (functions_of section) (section_of section) pack.now from tape.old
        result.answer result.next tape.new }
{
    let answer = sections::read_section(pack, section, from.place, from.budget, tape);
    let next = from.moved(answer);
    Lent { answer, next }
}

pub fn read_section(
    pack: &[u8],
    section: Section,
    at: &mut Position,
    tape: &mut [u32],
) -> Result<Taken, Refusal>
    ensures { LentCall (functions_of section) (section_of section) pack.now at.old
        tape.old result at.new tape.new }
{
    let d = step(pack, section, *at, tape);
    *at = d.next;
    d.answer
}

// By value, through the lent call, for a caller that has no position to lend.
pub fn read_section_at(pack: &[u8], section: Section, from: Position, tape: &mut [u32]) -> Lent
    ensures { LentCall (functions_of section) (section_of section) pack.now from tape.old
        result.answer result.next tape.new }
{
    let mut at = from;
    let answer = read_section(pack, section, &mut at, tape);
    Lent { answer, next: at }
}
