// Where a reader reads.
ghost use Rattle.reading.specs.Places.{ToldPlace};

use crate::{Refusal, Refused};
use bits::{BitPos, Cursor};
use limits::LONGEST_BUFFER;

// A cursor within the buffer, unless the positions are outside document 01's rule.
pub fn span(s: &[u8], start: BitPos, stop: BitPos) -> Result<Cursor, Refused>
    ensures { ToldPlace s.now start stop result }
{
    let too_long = LONGEST_BUFFER < s.len();
    if too_long {
        return Err(Refused::told_0(Refusal::Outside));
    }
    if stop.bit() < start.bit() {
        return Err(Refused::told_0(Refusal::Outside));
    }
    if 8 * s.len() < stop.bit() {
        return Err(Refused::told_0(Refusal::Outside));
    }
    Ok(Cursor::new(start, stop))
}
