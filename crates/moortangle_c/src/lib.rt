// The C boundary: each entry under its C name, its answer as a struct. C has no generic function and no enum with values, so each family has
// its own functions, and code, kind and parameter are numbers.
#![tactic(auto)]

ghost use Rattle.std.specs.Prelude.{◌≡◌};

use bits::BitPos;

pub mod readers;
pub mod writers;

// A bit, as C gives it.
pub(crate) fn at(bit: u64) -> BitPos
    ensures { result.0 ≡ bit }
{
    BitPos::new(bit as usize)
}
