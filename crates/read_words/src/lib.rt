// A word of each code, read at a cursor: the word and the cursor after it, that it is cut short, or the exact bit at which it dies.
#![tactic(auto)]

use bits::BitPos;

pub mod delta;
pub mod gamma;
pub mod parts;
pub mod rice;
pub mod variable_byte;

// Why no word stands at a cursor. Bad tells the first bit at which the bits can no longer be the beginning of any valid word.
#[derive(Clone, Copy, PartialEq, Eq)]
pub enum NoWord {
    Cut,
    Bad(BitPos),
}
