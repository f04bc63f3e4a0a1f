// A whole stream.
ghost use Rattle.format.specs.Reading.{Checks};
ghost use Rattle.read_streams.specs.Told.{checked};

use bits::{BitPos, Cursor};
use limits::LONGEST_BUFFER;
use read_streams::Checked;
use reading::{Refusal, Refused};

pub fn check(s: &[u8]) -> Result<Checked, Refused>
    ensures { Checks s.now (checked result) }
{
    if LONGEST_BUFFER < s.len() {
        return Err(Refused::told_0(Refusal::Outside));
    }
    let all = Cursor::new(BitPos::new(0), BitPos::new(8 * s.len()));
    read_streams::check(all, s)
}
