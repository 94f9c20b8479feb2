// Where the limits stand in the settings, behind the 33 sizes. One that may be above 65,535 takes two entries, low
// first.
pub const ARTIFACTS: usize = 33;

pub const ARTIFACT_NAME_BYTES: usize = 34;

pub const ARTIFACT_PAYLOAD_BYTES: usize = 35;

pub const ARTIFACT_PAYLOAD_BYTES_HIGH: usize = 36;

pub const INLINE_RECORDS: usize = 37;

pub const INLINE_RECORDS_HIGH: usize = 38;
