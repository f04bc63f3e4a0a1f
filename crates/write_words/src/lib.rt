// A word of each code: its bits counted without writing them, and written in a buffer.
#![tactic(auto)]

pub mod by_code;
pub mod delta;
pub mod gamma;
pub mod rice;
pub mod variable_byte;
