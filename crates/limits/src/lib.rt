#![tactic(auto)]

// The limits of documents 01 and 02, as code writes them, by the names of specs/Limits.antt.
pub const MOST_ATOMS: usize = 512;

// The same, for an N that a caller hands over.
pub const MOST_N: u64 = MOST_ATOMS as u64;

pub const MOST_WORDS: usize = 8192;

pub const MOST_IN_BODY: usize = 64;

pub const MOST_LINE: usize = 32768;

pub const MOST_NAME_BYTES: usize = 24;

pub const MOST_SHEET_BYTES: usize = 65536;

pub const MOST_RANK: usize = 1023;
