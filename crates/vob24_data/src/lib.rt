// What the code shares of the VOB 24 rule pack: the list of sections, and the table of sizes and limits that every
// charge reads. Ports the `size_of` terms and the limits of serialize.rs.
// `as` of an enum gives its number.
#![tactic(auto)]

ghost use Rattle.std.specs.Prelude.{◌+◌, ◌*◌, ◌≡◌, ◌≤◌, ◌<◌, get_or};
ghost use Rattle.vob24.specs.Settings.{settings, settings_of, size_of};
ghost use Rattle.vob24.specs.Grammar.{inline_sources};
ghost use Rattle.vob24_data.specs.Sections.{section_of, functions_of, number_of};
ghost use Rattle.vob24.specs.Cost.{all_sections};

mod limits;

// The sections of a pack, in file order; the inline sources with the number of functions that bounds them.
#[derive(Clone, Copy, PartialEq, Eq, Debug)]
pub enum Section {
    Name,
    Structs,
    Interfaces,
    NamedTypes,
    Itabs,
    RuntimeTypes,
    WellKnown,
    Constants,
    Globals,
    Functions,
    Externs,
    Entry,
    IslandInit,
    Artifacts,
    Files,
    FunctionLocations,
    InlineSources(u64),
}

// The number of a section, in file order: so many stand before it. `as` takes no enum whose variant has a field.
// A `match`, as it is a closed list of cases.
pub fn section_number(section: Section) -> usize
    ensures { (result ≡ number_of (section_of section)) × (result ≤ 16) }
{
    match section {
        Section::Name => 0,
        Section::Structs => 1,
        Section::Interfaces => 2,
        Section::NamedTypes => 3,
        Section::Itabs => 4,
        Section::RuntimeTypes => 5,
        Section::WellKnown => 6,
        Section::Constants => 7,
        Section::Globals => 8,
        Section::Functions => 9,
        Section::Externs => 10,
        Section::Entry => 11,
        Section::IslandInit => 12,
        Section::Artifacts => 13,
        Section::Files => 14,
        Section::FunctionLocations => 15,
        Section::InlineSources(_) => 16,
    }
}

// The section of a number. The last, which goes by the number of functions, is left out. No `TryFrom`: its `Err` would be
// a case that no caller can meet, as `i < 16` there. A `match`, as it is a closed list of cases.
pub fn section_at(i: usize) -> Section
    requires { i < 16 }
    ensures { (section_of result ≡ get_or all_sections i inline_sources) × (functions_of result ≡ 0) }
{
    match i {
        0 => Section::Name,
        1 => Section::Structs,
        2 => Section::Interfaces,
        3 => Section::NamedTypes,
        4 => Section::Itabs,
        5 => Section::RuntimeTypes,
        6 => Section::WellKnown,
        7 => Section::Constants,
        8 => Section::Globals,
        9 => Section::Functions,
        10 => Section::Externs,
        11 => Section::Entry,
        12 => Section::IslandInit,
        13 => Section::Artifacts,
        14 => Section::Files,
        _ => Section::FunctionLocations,
    }
}

// What a reading is set to: the 33 sizes, and behind them the limits, at the indexes that `limits` names (`settings_of`
// in vob24's Settings.antt). Readers take it as `&Settings`. An entry is below 65,536 by its type, so that no count times
// a size wraps. One array and no struct, since `settings_of` reads one list.
pub type Settings = [u16; 39];

// What the Rust is set to: `size_of` on the pinned 64-bit compiler, in order of first use along the reading (StructMeta
// to InlineSourceEntry), and of ExternDef; then its limits.
pub const MEASURED: [u16; 39] = [
    96, 1, 64, 32, 72, 24, 32, 16, 56, 40, 8, 32, 4, 56, 4, 80, 32, 32, 24, 56, 240, 2, 8, 64, 8,
    12, 56, 24, 20, 28, 32, 8, 144, 64, 128, 0, 256, 0, 2,
];

// The sizes: the entries' types in order of first use along the reading, and ExternDef.
#[derive(Clone, Copy, PartialEq, Eq, Debug)]
pub enum Size {
    StructMeta = 1,
    SlotType = 2,
    FieldMeta = 3,
    StringUsize = 4,
    InterfaceMeta = 5,
    String = 6,
    InterfaceMethodMeta = 7,
    Str = 8,
    NamedTypeMeta = 9,
    StringMethodInfo = 10,
    Usize = 11,
    Itab = 12,
    U32 = 13,
    RuntimeType = 14,
    ValueRttid = 15,
    StructField = 16,
    StrStr = 17,
    InterfaceMethod = 18,
    Constant = 19,
    GlobalDef = 20,
    FunctionDef = 21,
    U16 = 22,
    Instruction = 23,
    InstructionMetadata = 24,
    SelectCaseLayout = 25,
    TransferType = 26,
    ModuleArtifact = 27,
    FuncDebugInfo = 28,
    DebugLoc = 29,
    InlineSourceFrame = 30,
    InlineFunctionSources = 31,
    InlineSourceEntry = 32,
    ExternDef = 33,
}

impl Size {
    ghost use Rattle.std.specs.Prelude.{◌≡◌, ◌<◌};
    ghost use Rattle.vob24.specs.Settings.{settings_of, size_of};
    ghost use Rattle.vob24_data.specs.Sizes.{size_number};

    pub fn bytes(self, set: &Settings) -> u64
        ensures { (result ≡ size_of (settings_of set.now) (size_number self)) × (result < 65536) }
    {
        size_at(set, self as usize)
    }
}

// The size numbered i from 1 on; 0 where there is none. A `match`, as a range says both ends of the table.
pub fn size_at(set: &Settings, i: usize) -> u64
    ensures { (result ≡ size_of (settings_of set.now) i) × (result < 65536) }
{
    match i {
        1..=33 => u64::from(set[i - 1]),
        _ => 0,
    }
}

// The same in the measured table.
pub fn measured_size(i: usize) -> u64
    ensures { (result ≡ size_of settings i) × (result ≤ 4096) }
{
    size_at(&MEASURED, i)
}

// ---- the limits

// A limit of two entries, low first.
fn joined(low: u16, high: u16) -> u64
    ensures { result ≡ low + 65536 * high }
{
    u64::from(low) + 65536 * u64::from(high)
}

#[tactic(auto, unfolding(vob24::specs::Settings::settings_of))]
pub fn artifacts(set: &Settings) -> u64
    ensures { result ≡ (settings_of set.now).artifacts }
{
    u64::from(set[limits::ARTIFACTS])
}

#[tactic(auto, unfolding(vob24::specs::Settings::settings_of))]
pub fn artifact_name_bytes(set: &Settings) -> u64
    ensures { result ≡ (settings_of set.now).artifact_name_bytes }
{
    u64::from(set[limits::ARTIFACT_NAME_BYTES])
}

// The two limits of two entries each are two functions, since each one's contract names its limit.
#[tactic(auto, unfolding(vob24::specs::Settings::settings_of))]
pub fn artifact_payload_bytes(set: &Settings) -> u64
    ensures { result ≡ (settings_of set.now).artifact_payload_bytes }
{
    joined(
        set[limits::ARTIFACT_PAYLOAD_BYTES],
        set[limits::ARTIFACT_PAYLOAD_BYTES_HIGH],
    )
}

// A limit of two entries too; its contract names another.
#[tactic(auto, unfolding(vob24::specs::Settings::settings_of))]
pub fn inline_records(set: &Settings) -> u64
    ensures { result ≡ (settings_of set.now).inline_records }
{
    joined(
        set[limits::INLINE_RECORDS],
        set[limits::INLINE_RECORDS_HIGH],
    )
}
