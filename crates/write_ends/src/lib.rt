// The end of a stream, written: a public entry.
#![tactic(auto)]

ghost use Rattle.format.specs.Writing.{WritesEnd};
ghost use Rattle.writing.specs.Wrote.{outcome_of};

use bits::BitPos;
use limits::LONGEST_BUFFER;
use writing::Unwritten;

pub fn write_end(buf: &mut [u8], start: BitPos) -> Result<BitPos, Unwritten>
    ensures { WritesEnd buf.old start.0 (outcome_of result) buf.new }
{
    let bytes = buf.len();
    let at = start.bit();
    let too_long = LONGEST_BUFFER < bytes;
    if too_long {
        return Err(Unwritten::Outside);
    }
    if 8 * bytes < at {
        return Err(Unwritten::Outside);
    }
    let full = 8 * bytes - at < 4;
    if full {
        return Err(Unwritten::Full);
    }
    // the mark's fourth zero tells the byte to whose end the zeros go
    let end = start.after(3).byte().end();
    pen::write::field(buf, at, end.bit() - at, 0);
    Ok(end)
}
