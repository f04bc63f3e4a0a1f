// A record: read or refused.
ghost use Rattle.std.specs.Prelude.{map, pos};
ghost use Rattle.format.specs.Kinds.{Unsigned, Signed};
ghost use Rattle.read_entries.specs.Reads.{ReadsInto};

use crate::asked;
use bits::BitPos;
use read_records::{Found, Listed};
use reading::{Refused, place};

fn read_list<T: Listed>(
    s: &[u8],
    start: BitPos,
    stop: BitPos,
    kind: u32,
    list: &mut [T],
) -> Result<Found, Refused>
    ensures { ReadsInto s.now start.0 stop.0 T.of_family kind (map T.number list.old) result (map T.number list.new) }
{
    let c = place::span(s, start, stop)?;
    let t = asked::<T>(kind)?;
    read_records::read(c, s, t, list)
}

// A record of plain values or of instants into the front of a lent list, or an end mark.
pub fn read(
    s: &[u8],
    start: BitPos,
    stop: BitPos,
    kind: u32,
    list: &mut [u32],
) -> Result<Found, Refused>
    ensures { ReadsInto s.now start.0 stop.0 Unsigned kind (map pos list.old) result (map pos list.new) }
{
    read_list(s, start, stop, kind, list)
}

// A record of corrections, or an end mark.
pub fn read_corrections(
    s: &[u8],
    start: BitPos,
    stop: BitPos,
    kind: u32,
    list: &mut [i32],
) -> Result<Found, Refused>
    ensures { ReadsInto s.now start.0 stop.0 Signed kind list.old result list.new }
{
    read_list(s, start, stop, kind, list)
}
