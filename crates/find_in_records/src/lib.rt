// Look-up and search: a whole record is judged without a list, and only then is one value, or how many are below one sought, told.
#![tactic(auto)]

ghost use Rattle.std.specs.Prelude.{◌≡◌, length};
ghost use Rattle.format.specs.Kinds.{family_of};
ghost use Rattle.format.specs.Kinds as Kinds;
ghost use Rattle.format.specs.Reading.{LookUp, Search, asked_for};
ghost use Rattle.bits.specs.Cursor.{Within, left};
ghost use Rattle.headings.specs.Headings.{kind_of};
ghost use Rattle.find_in_records.specs.Told.{ToldSeen, value_told, searched};

use bits::Cursor;
use headings::Kind;
use limits::LONGEST_LIST;
use read_bodies::Body;
use read_headings::Begun;
use reading::{Refusal, Refused};

// A whole record without a list: its count, the value at a place, and how many are below a sought one.
#[derive(Clone, Copy)]
struct Seen<T> {
    count: usize,
    value: T,
    below: usize,
}

// An end mark is no record.
fn see<T: Body>(
    c: Cursor,
    s: &[u8],
    kind: Kind,
    place: usize,
    sought: u32,
) -> Result<Seen<T>, Refused>
    requires { Within c (length s.now) × (family_of (kind_of kind) ≡ T.of_family) }
    ensures { ToldSeen T.number (asked_for (kind_of kind)) place sought s.now c result }
{
    match read_headings::read(c, s, Some(kind), LONGEST_LIST)? {
        Begun::Body(h, n, d) => {
            let judged = read_bodies::judge(d, s, h, n, place, sought)?;
            Ok(Seen {
                count: n,
                value: judged.value,
                below: judged.below,
            })
        }
        Begun::End(_) => Err(Refused {
            why: Refusal::Unknown,
            at: c.at(),
        }),
    }
}

pub fn look_up<T: Body>(c: Cursor, s: &[u8], kind: Kind, place: usize) -> Result<T, Refused>
    requires { Within c (length s.now) × (family_of (kind_of kind) ≡ T.of_family) }
    ensures { LookUp place (asked_for (kind_of kind)) c.stop.0 (left c s.now) (value_told T.number result) }
{
    let seen: Seen<T> = see(c, s, kind, place, 0)?;
    let within = place < seen.count;
    if within {
        return Ok(seen.value);
    }
    Err(Refused::told_0(Refusal::Beyond))
}

pub fn search(c: Cursor, s: &[u8], sought: u32) -> Result<usize, Refused>
    requires { Within c (length s.now) }
    ensures { Search sought (asked_for Kinds.Instants) c.stop.0 (left c s.now) (searched result) }
{
    let seen: Seen<u32> = see(c, s, Kind::Instants, 0, sought)?;
    Ok(seen.below)
}
