// A pen: the writing position, and bits that are gathered there before they are stored; and fields of bits, written without it.
#![tactic(auto)]

use bits::BitPos;

pub mod draw;
pub mod write;

// The writing position, and the bits gathered before it, from the last multiple of 32 on, that are not stored yet. It is
// taken, moved on and handed back.
#[derive(Clone, Copy)]
pub struct Pen {
    at: BitPos,
    gathered: u64,
}
