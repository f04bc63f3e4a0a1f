// A record's count, read at a cursor and judged.
#![tactic(auto)]

ghost use Rattle.std.specs.Prelude.{length};
ghost use Rattle.bits.specs.Cursor.{Within};
ghost use Rattle.read_counts.specs.Told.{ToldCountField};

use bits::Cursor;
use limits::LONGEST_LIST;
use read_words::gamma;
use reading::{Refusal, Refused};

// The count, and the cursor after it. A refusal is told at its first bit.
pub fn read(c: Cursor, s: &[u8], room: usize) -> Result<(usize, Cursor), Refused>
    requires { Within c (length s.now) }
    ensures { ToldCountField room s.now c result }
{
    let (w, d) = match gamma::read(c, s) {
        Ok(read) => read,
        Err(e) => return Err(Refused::word(e, c.at())),
    };
    let n = (w - 1) as usize;
    let too_many = LONGEST_LIST < n;
    if too_many {
        return Err(Refused {
            why: Refusal::TooMany,
            at: c.at(),
        });
    }
    let no_room = room < n;
    if no_room {
        return Err(Refused {
            why: Refusal::NoRoom,
            at: c.at(),
        });
    }
    Ok((n, d))
}
