// The kinds of refusal and what charges and limits are for, by document 01's names and numbers; vob24's
// specs/Refusals.antt has the numbers for the contracts.
// `as` of an enum gives its number.
ghost use Rattle.std.specs.Prelude.{◌≡◌};
ghost use Rattle.reader.specs.Numbers.{kind_number, context_number, part_number};

// What is wrong.
#[derive(Clone, Copy, PartialEq, Eq, Debug)]
pub enum Kind {
    InputTooLarge = 1,
    UnexpectedEof = 2,
    InvalidMagic = 3,
    UnsupportedVersion = 4,
    AllocationBudgetExceeded = 5,
    InvalidUtf8 = 6,
    InvalidBoolean = 7,
    InvalidSlotType = 8,
    InvalidValueKind = 9,
    InvalidPackedValueMeta = 10,
    InvalidPackedValueRttid = 11,
    InvalidChanDir = 12,
    InvalidRuntimeType = 13,
    InvalidConstant = 14,
    InvalidInstructionMetadata = 15,
    DuplicateStructField = 16,
    DuplicateInterfaceMethod = 17,
    DuplicateNamedMethod = 18,
    DuplicateRuntimeStructField = 19,
    InvalidFunctionMetadata = 20,
    InvalidSourceInteger = 21,
    ModuleArtifactLimitExceeded = 22,
    DebugMetadataLimitExceeded = 23,
    TrailingBytes = 24,
    HostCalls = 25,
    NoRoom = 26,
    NoSuchArtifact = 27,
    // of `source_lines`, which no call gives yet
    NoSuchFunction = 28,
}

impl From<Kind> for u64 {
    ghost from_gives = { λ kind n. n ≡ kind_number kind };

    fn from(kind: Kind) -> u64 {
        kind as u64
    }
}

// What a charge or a limit is for.
#[derive(Clone, Copy, PartialEq, Eq, Debug)]
pub enum Context {
    ByteString = 1,
    Vector = 2,
    StructFieldIndex = 3,
    StructFieldKey = 4,
    InterfaceMethodSet = 5,
    NamedMethodMap = 6,
    RuntimeStructFieldSet = 7,
    ModuleArtifacts = 8,
    ArtifactName = 9,
    ArtifactPayload = 10,
    ArtifactCount = 11,
    InlineFrames = 12,
    InlineFunctions = 13,
    InlineEntries = 14,
}

impl From<Context> for u64 {
    ghost from_gives = { λ context n. n ≡ context_number context };

    fn from(context: Context) -> u64 {
        context as u64
    }
}

// What of a function is wrong where 20 is given: the meta word of a capture or of a parameter, whose rttid word has one
// number more, or the slot count.
#[derive(Clone, Copy, PartialEq, Eq, Debug)]
pub enum Part {
    CaptureMeta = 1,
    ParameterMeta = 3,
    SlotCount = 5,
}

impl From<Part> for u64 {
    ghost from_gives = { λ part n. n ≡ part_number part };

    fn from(part: Part) -> u64 {
        part as u64
    }
}
