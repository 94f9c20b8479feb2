// The whole pack: magic, version and the seventeen sections, in file order.
// Ports Module::deserialize of serialize.rs.
#![tactic(auto)]

ghost use Rattle.std.specs.Prelude.{true};
ghost use Rattle.vob24.specs.Settings.{settings_of};
ghost use Rattle.vob24.specs.Grammar as vob;
ghost use Rattle.vob24_data.specs.Sections.{section_of, number_of};
ghost use Rattle.reader.specs.Contract.{step_of, Ready, Reader, ComesTo};
ghost use Rattle.reader.specs.Accepted.{Accepted};
ghost use Rattle.deserialize.specs.Parts.{format_of, from_section, count_of};
ghost use Rattle.deserialize.specs.Reach.{Reaches};

use fields::U32;
use reader::{Read, Step};
use vob24_data::{Section, Settings};

// The artifacts and the debug information: five lists, of which the inline sources have two, all empty in a small pack.
fn artifacts_on(s: &[u8], set: &Settings, r: Step, functions: u64, tape: &mut [u32]) -> Step
    requires { Ready s.now r }
    ensures { Reader (from_section (settings_of set.now) functions vob.artifacts) s.now r
        tape.old result tape.new }
{
    let c = r?;
    if empty_lists::empty_at(s, c, 5) {
        return Ok(empty_lists::past_empty(s, c, 5, tape));
    }
    let r1 = small_sections::artifacts(s, set, r, tape);
    let r2 = debug_info::files(s, set, r1, tape);
    let r3 = debug_info::function_locations(s, set, r2, tape);
    debug_info::inline_sources(s, set, r3, functions, tape)
}

// The sections after the functions, by their number.
fn after_functions(s: &[u8], set: &Settings, r: Step, functions: u64, tape: &mut [u32]) -> Step
    requires { Ready s.now r }
    ensures { Reader (from_section (settings_of set.now) functions vob.externs) s.now r
        tape.old result tape.new }
{
    // externs, entry, island_init
    let r1 = externs::externs(s, set, r, tape);
    let r2 = fields::field::<U32>(s, r1, tape);
    let r3 = fields::field::<U32>(s, r2, tape);
    artifacts_on(s, set, r3, functions, tape)
}

// The constants, globals and functions: three lists, which are empty in a pack without code. Also returns the number of
// functions.
fn number_code(s: &[u8], set: &Settings, r: Step, tape: &mut [u32]) -> Read<u64>
    requires { Ready s.now r }
    ensures { ComesTo (from_section (settings_of set.now) 0 vob.constants)
        (from_section (settings_of set.now) (count_of result) vob.externs) s.now r tape.old
        (step_of result) tape.new }
{
    let c = r?;
    if empty_lists::empty_at(s, c, 3) {
        return Ok((0, empty_lists::past_empty(s, c, 3, tape)));
    }
    let r1 = constants::constants(s, set, r, tape);
    let r2 = small_sections::globals(s, set, r1, tape);
    functions::number_functions(s, set, r2?, tape)
}

// The constants, and the sections after them.
fn constants_on(s: &[u8], set: &Settings, r: Step, tape: &mut [u32]) -> Step
    requires { Ready s.now r }
    ensures { Reader (from_section (settings_of set.now) 0 vob.constants) s.now r
        tape.old result tape.new }
{
    let (n, d) = number_code(s, set, r, tape)?;
    after_functions(s, set, Ok(d), n, tape)
}

// The types: five lists, which are empty in a small pack.
fn types(s: &[u8], set: &Settings, r: Step, again: bool, tape: &mut [u32]) -> Step
    requires { (Ready s.now r) × (Accepted again (from_section (settings_of set.now) 0 vob.structs) s.now r) }
    ensures { ComesTo (from_section (settings_of set.now) 0 vob.structs)
        (from_section (settings_of set.now) 0 vob.well_known) s.now r tape.old result
        tape.new }
{
    let c = r?;
    if empty_lists::empty_at(s, c, 5) {
        return Ok(empty_lists::past_empty(s, c, 5, tape));
    }
    let r1 = structs::structs(s, set, r, again, tape);
    let r2 = interfaces::interfaces(s, set, r1, again, tape);
    let r3 = named_types::named_types(s, set, r2, again, tape);
    let r4 = small_sections::itabs(s, set, r3, tape);
    runtime_type::runtime_types(s, set, r4, again, tape)
}

// The whole pack, up to the question of what comes after it. A second pass leaves out the search for repeated names.
pub fn deserialize(s: &[u8], set: &Settings, r: Step, again: bool, tape: &mut [u32]) -> Step
    requires { (Ready s.now r) × (Accepted again (vob.pack (settings_of set.now)) s.now r) }
    ensures { Reader (vob.pack (settings_of set.now)) s.now r tape.old result
        tape.new }
{
    let r1 = fields::field_magic(s, r, tape);
    let r2 = fields::field_version(s, r1, tape);
    let r3 = fields::field_str(s, r2, tape);
    let r4 = types(s, set, r3, again, tape);
    let r5 = small_sections::well_known(s, r4, tape);
    constants_on(s, set, r5, tape)
}

// One section. A second pass leaves out the search for repeated names.
// A `match`, as the arms are calls of different contracts: a closure's type would have to say each.
pub fn section(
    s: &[u8],
    set: &Settings,
    section: Section,
    r: Step,
    again: bool,
    tape: &mut [u32],
) -> Step
    requires { (Ready s.now r) × (Accepted again (format_of (settings_of set.now) section) s.now r) }
    ensures { Reader (format_of (settings_of set.now) section) s.now r tape.old result
        tape.new }
{
    match section {
        Section::Name => fields::field_str(s, r, tape),
        Section::Structs => structs::structs(s, set, r, again, tape),
        Section::Interfaces => interfaces::interfaces(s, set, r, again, tape),
        Section::NamedTypes => named_types::named_types(s, set, r, again, tape),
        Section::Itabs => small_sections::itabs(s, set, r, tape),
        Section::RuntimeTypes => runtime_type::runtime_types(s, set, r, again, tape),
        Section::WellKnown => small_sections::well_known(s, r, tape),
        Section::Constants => constants::constants(s, set, r, tape),
        Section::Globals => small_sections::globals(s, set, r, tape),
        Section::Functions => functions::functions(s, set, r, tape),
        Section::Externs => externs::externs(s, set, r, tape),
        Section::Entry => fields::field::<U32>(s, r, tape),
        Section::IslandInit => fields::field::<U32>(s, r, tape),
        Section::Artifacts => small_sections::artifacts(s, set, r, tape),
        Section::Files => debug_info::files(s, set, r, tape),
        Section::FunctionLocations => debug_info::function_locations(s, set, r, tape),
        Section::InlineSources(n) => debug_info::inline_sources(s, set, r, n, tape),
    }
}

// On to a section of a pack that is taken. The count that comes with the inline sources says nothing here.
pub fn to_section(s: &[u8], set: &Settings, to: Section, r: Step, tape: &mut [u32]) -> Step
    requires { (Ready s.now r) × (Accepted true (vob.pack (settings_of set.now)) s.now r) }
    ensures { Reaches (settings_of set.now) (number_of (section_of to)) s.now r result }
{
    let r1 = fields::field_magic(s, r, tape);
    let mut here = fields::field_version(s, r1, tape);
    for i in 0..vob24_data::section_number(to) {
        let x = vob24_data::section_at(i);
        here = section(s, set, x, here, true, tape);
    }
    here
}
