// Document 01's limits, as the code's own numbers. What they have to be is said in crates/format/specs/Limits.antt: each contract that one of
// them decides is proved against it.
#![tactic(auto)]

pub const LONGEST_BUFFER: usize = 65536;

pub const LONGEST_LIST: usize = 4096;

pub const LARGEST_WORD: u32 = 4294967295;

pub const LARGEST_INSTANT: u32 = 4294967294;

pub const LARGEST_CORRECTION: i32 = 2147483647;

pub const LARGEST_PARAMETER: u32 = 31;
