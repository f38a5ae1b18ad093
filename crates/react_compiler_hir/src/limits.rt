// The version of records that is read and written.
pub const RECORD_VERSION: u16 = 1;

// The most that a function and its two tables may have, in a record and before a pass.
pub const MOST_BLOCKS: u32 = 1_024;

pub const MOST_INSTRUCTIONS: u32 = 16_384;

pub const MOST_WORDS: u32 = 65_536;

pub const MOST_SCOPES: u32 = 1_024;

pub const MOST_IDENTIFIERS: u32 = 16_384;
