// One value of a record by its place, and how many instants are below a sought one.
ghost use Rattle.format.specs.Kinds.{Unsigned, Signed};
ghost use Rattle.format.specs.Reading.{LooksUp, Searches};
ghost use Rattle.find_in_records.specs.Told.{value_told, looked_up, looked_up_correction, searched};

use bits::BitPos;
use headings::kind_of;
use read_bodies::Body;
use reading::{Refusal, Refused, place};

fn look_up_value<T: Body>(
    s: &[u8],
    start: BitPos,
    stop: BitPos,
    kind: u32,
    place: usize,
) -> Result<T, Refused>
    ensures { LooksUp s.now start.0 stop.0 T.of_family kind place (value_told T.number result) }
{
    let c = place::span(s, start, stop)?;
    let Some(t) = kind_of(T::family(), kind) else {
        return Err(Refused {
            why: Refusal::Unknown,
            at: BitPos::new(0),
        });
    };
    find_in_records::look_up(c, s, t, place)
}

// In a record of plain values or of instants.
pub fn look_up(
    s: &[u8],
    start: BitPos,
    stop: BitPos,
    kind: u32,
    place: usize,
) -> Result<u32, Refused>
    ensures { LooksUp s.now start.0 stop.0 Unsigned kind place (looked_up result) }
{
    look_up_value(s, start, stop, kind, place)
}

// In a record of corrections.
pub fn look_up_correction(
    s: &[u8],
    start: BitPos,
    stop: BitPos,
    kind: u32,
    place: usize,
) -> Result<i32, Refused>
    ensures { LooksUp s.now start.0 stop.0 Signed kind place (looked_up_correction result) }
{
    look_up_value::<i32>(s, start, stop, kind, place)
}

pub fn search(s: &[u8], start: BitPos, stop: BitPos, sought: u32) -> Result<usize, Refused>
    ensures { Searches s.now start.0 stop.0 sought (searched result) }
{
    let c = place::span(s, start, stop)?;
    find_in_records::search(c, s, sought)
}
