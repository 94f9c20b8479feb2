// The section call by value: one section of a pack alone, from a place and a budget, into a tape of its own.
// The Rust has no such call; it reads what Module::deserialize reads of the section.
#![tactic(auto)]

ghost use Rattle.vob24.specs.Settings.{settings};
ghost use Rattle.vob24_data.specs.Sections.{section_of, functions_of};
ghost use Rattle.calls.specs.Contract.{SectionCall};

use calls::Taken;
use reader::Refusal;
use vob24_data::Section;

pub fn read_section(
    pack: &[u8],
    section: Section,
    place: usize,
    budget: u64,
    tape: &mut [u32],
) -> Result<Taken, Refusal>
    ensures { SectionCall settings (functions_of section) (section_of section) pack.now place budget
        tape.old result tape.new }
{
    let set = &vob24_data::MEASURED;
    let start = calls::opening(pack, place, budget);
    let first = deserialize::section(pack, set, section, start, false, &mut tape[..0]);
    let taken = calls::closed(first, place, budget, tape.len())?;
    let _ = deserialize::section(pack, set, section, start, true, tape);
    Ok(taken)
}
