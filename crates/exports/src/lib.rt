// The calls for programs in C or Rust to link (rt lib in this folder): whole pack, sections, lookup, names alike and the
// table of sizes, over the C ABI. The Rust has none of these; bindings/c/vob.h declares them. An answer is returned by value, so
// a refusal changes no lent memory.
// `as` stands between usize and u64, where Rust has no `From`.
#![tactic(auto)]

ghost use Rattle.std.specs.Prelude.{◌≡◌};
ghost use Rattle.vob24.specs.Settings.{settings, size_of};
ghost use Rattle.vob24.specs.Grammar as vob;
ghost use Rattle.vob24.specs.Calls.{read_outcome, section_outcome, find_outcome};
ghost use Rattle.alike.specs.Alike.{alike_outcome};
ghost use Rattle.c_answers.specs.Numbers.{found_numbers, alike_numbers, Shows};

pub use c_answers::VobAnswer;
use vob24_data::Section;

#[unsafe(no_mangle)]
pub extern "C" fn vob_read(pack: &[u8], budget: u64, tape: &mut [u32]) -> VobAnswer
    ensures { Shows (read_outcome settings pack.now budget tape.old) result
        tape.new }
{
    VobAnswer::from(pack::read(pack, budget, tape))
}

#[unsafe(no_mangle)]
pub extern "C" fn vob_find_artifact(pack: &[u8], name: &[u8]) -> VobAnswer
    ensures { result ≡ found_numbers (find_outcome settings pack.now name.now) }
{
    VobAnswer::from(pack::locate_artifact(pack, name))
}

#[unsafe(no_mangle)]
pub extern "C" fn vob_alike_names(pack: &[u8]) -> VobAnswer
    ensures { result ≡ alike_numbers (alike_outcome settings pack.now) }
{
    VobAnswer::from(pack::alike_names(pack))
}

// The size numbered i in the table of sizes, from 1 to 33; 0 where there is none.
#[unsafe(no_mangle)]
pub extern "C" fn vob_charge_size(index: u64) -> u64
    ensures { result ≡ size_of settings index }
{
    vob24_data::measured_size(index as usize)
}

// ---- the sections, in file order: one function each, since a C program links each by its name

#[unsafe(no_mangle)]
pub extern "C" fn vob_name(pack: &[u8], place: u64, budget: u64, tape: &mut [u32]) -> VobAnswer
    ensures { Shows (section_outcome settings 0 vob.name pack.now place budget tape.old) result
        tape.new }
{
    VobAnswer::from(sections::read_section(pack, Section::Name, place as usize, budget, tape))
}

#[unsafe(no_mangle)]
pub extern "C" fn vob_structs(pack: &[u8], place: u64, budget: u64, tape: &mut [u32]) -> VobAnswer
    ensures { Shows (section_outcome settings 0 vob.structs pack.now place budget tape.old)
        result tape.new }
{
    VobAnswer::from(sections::read_section(pack, Section::Structs, place as usize, budget, tape))
}

#[unsafe(no_mangle)]
pub extern "C" fn vob_interfaces(
    pack: &[u8],
    place: u64,
    budget: u64,
    tape: &mut [u32],
) -> VobAnswer
    ensures { Shows
        (section_outcome settings 0 vob.interfaces pack.now place budget tape.old) result
        tape.new }
{
    VobAnswer::from(sections::read_section(pack, Section::Interfaces, place as usize, budget, tape))
}

#[unsafe(no_mangle)]
pub extern "C" fn vob_named_types(
    pack: &[u8],
    place: u64,
    budget: u64,
    tape: &mut [u32],
) -> VobAnswer
    ensures { Shows
        (section_outcome settings 0 vob.named_types pack.now place budget tape.old) result
        tape.new }
{
    VobAnswer::from(sections::read_section(pack, Section::NamedTypes, place as usize, budget, tape))
}

#[unsafe(no_mangle)]
pub extern "C" fn vob_itabs(pack: &[u8], place: u64, budget: u64, tape: &mut [u32]) -> VobAnswer
    ensures { Shows (section_outcome settings 0 vob.itabs pack.now place budget tape.old) result
        tape.new }
{
    VobAnswer::from(sections::read_section(pack, Section::Itabs, place as usize, budget, tape))
}

#[unsafe(no_mangle)]
pub extern "C" fn vob_runtime_types(
    pack: &[u8],
    place: u64,
    budget: u64,
    tape: &mut [u32],
) -> VobAnswer
    ensures { Shows
        (section_outcome settings 0 vob.runtime_types pack.now place budget tape.old) result
        tape.new }
{
    VobAnswer::from(sections::read_section(
        pack,
        Section::RuntimeTypes,
        place as usize,
        budget,
        tape,
    ))
}

#[unsafe(no_mangle)]
pub extern "C" fn vob_well_known(
    pack: &[u8],
    place: u64,
    budget: u64,
    tape: &mut [u32],
) -> VobAnswer
    ensures { Shows
        (section_outcome settings 0 vob.well_known pack.now place budget tape.old) result
        tape.new }
{
    VobAnswer::from(sections::read_section(pack, Section::WellKnown, place as usize, budget, tape))
}

#[unsafe(no_mangle)]
pub extern "C" fn vob_constants(pack: &[u8], place: u64, budget: u64, tape: &mut [u32]) -> VobAnswer
    ensures { Shows
        (section_outcome settings 0 vob.constants pack.now place budget tape.old) result
        tape.new }
{
    VobAnswer::from(sections::read_section(pack, Section::Constants, place as usize, budget, tape))
}

#[unsafe(no_mangle)]
pub extern "C" fn vob_globals(pack: &[u8], place: u64, budget: u64, tape: &mut [u32]) -> VobAnswer
    ensures { Shows (section_outcome settings 0 vob.globals pack.now place budget tape.old)
        result tape.new }
{
    VobAnswer::from(sections::read_section(pack, Section::Globals, place as usize, budget, tape))
}

#[unsafe(no_mangle)]
pub extern "C" fn vob_functions(pack: &[u8], place: u64, budget: u64, tape: &mut [u32]) -> VobAnswer
    ensures { Shows
        (section_outcome settings 0 vob.functions pack.now place budget tape.old) result
        tape.new }
{
    VobAnswer::from(sections::read_section(pack, Section::Functions, place as usize, budget, tape))
}

#[unsafe(no_mangle)]
pub extern "C" fn vob_externs(pack: &[u8], place: u64, budget: u64, tape: &mut [u32]) -> VobAnswer
    ensures { Shows (section_outcome settings 0 vob.externs pack.now place budget tape.old)
        result tape.new }
{
    VobAnswer::from(sections::read_section(pack, Section::Externs, place as usize, budget, tape))
}

#[unsafe(no_mangle)]
pub extern "C" fn vob_entry(pack: &[u8], place: u64, budget: u64, tape: &mut [u32]) -> VobAnswer
    ensures { Shows (section_outcome settings 0 vob.entry pack.now place budget tape.old) result
        tape.new }
{
    VobAnswer::from(sections::read_section(pack, Section::Entry, place as usize, budget, tape))
}

#[unsafe(no_mangle)]
pub extern "C" fn vob_island_init(
    pack: &[u8],
    place: u64,
    budget: u64,
    tape: &mut [u32],
) -> VobAnswer
    ensures { Shows
        (section_outcome settings 0 vob.island_init pack.now place budget tape.old) result
        tape.new }
{
    VobAnswer::from(sections::read_section(pack, Section::IslandInit, place as usize, budget, tape))
}

#[unsafe(no_mangle)]
pub extern "C" fn vob_artifacts(pack: &[u8], place: u64, budget: u64, tape: &mut [u32]) -> VobAnswer
    ensures { Shows
        (section_outcome settings 0 vob.artifacts pack.now place budget tape.old) result
        tape.new }
{
    VobAnswer::from(sections::read_section(pack, Section::Artifacts, place as usize, budget, tape))
}

#[unsafe(no_mangle)]
pub extern "C" fn vob_files(pack: &[u8], place: u64, budget: u64, tape: &mut [u32]) -> VobAnswer
    ensures { Shows (section_outcome settings 0 vob.files pack.now place budget tape.old) result
        tape.new }
{
    VobAnswer::from(sections::read_section(pack, Section::Files, place as usize, budget, tape))
}

#[unsafe(no_mangle)]
pub extern "C" fn vob_function_locations(
    pack: &[u8],
    place: u64,
    budget: u64,
    tape: &mut [u32],
) -> VobAnswer
    ensures { Shows
        (section_outcome settings 0 vob.function_locations pack.now place budget tape.old) result
        tape.new }
{
    VobAnswer::from(sections::read_section(
        pack,
        Section::FunctionLocations,
        place as usize,
        budget,
        tape,
    ))
}

#[unsafe(no_mangle)]
pub extern "C" fn vob_inline_sources(
    pack: &[u8],
    place: u64,
    budget: u64,
    functions: u64,
    tape: &mut [u32],
) -> VobAnswer
    ensures { Shows
        (section_outcome settings functions vob.inline_sources pack.now place budget tape.old) result
        tape.new }
{
    VobAnswer::from(sections::read_section(
        pack,
        Section::InlineSources(functions),
        place as usize,
        budget,
        tape,
    ))
}
