// A whole record, or an end mark, read at a cursor: its body judged and kept, and only then copied into a lent list.
#![tactic(auto)]

ghost use Rattle.std.specs.Prelude.{◌≡◌, map, ◌≤◌, length};
ghost use Rattle.format.specs.Limits.{longest_list};
ghost use Rattle.format.specs.Kinds.{family_of};
ghost use Rattle.bits.specs.Cursor.{Within};
ghost use Rattle.headings.specs.Headings.{kind_of};
ghost use Rattle.read_bodies.specs.Bodies.{HeadingFor};
ghost use Rattle.read_records.specs.Told.{Copied, ToldListed, ToldRead};

use bits::{BitPos, Cursor};
use headings::{Heading, Kind};
use read_bodies::Body;
use read_headings::Begun;
use reading::Refused;

mod signed;
mod unsigned;

// What a reader finds: a record, by its heading, its count and the bit after it; or the bit after an end mark.
#[derive(Clone, Copy)]
pub enum Found {
    Record(Heading, usize, BitPos),
    End(BitPos),
}

// The first n values of an own list, put in front of a lent one: one by one, since a copy of the whole would be a call that the C archive
// needs from outside.
fn copy<T: Copy>(own: &[T], n: usize, list: &mut [T])
    requires { (n ≤ length own.now) × (n ≤ length list.old) }
    ensures { Copied n own.now list.old list.new }
{
    for i in 0..n {
        list[i] = own[i];
    }
}

// The list after a heading, by way of an own list: only after the last value is judged is the lent one touched. It stays out of `listed`,
// whose own lists would let the compiler make one call of the copy.
#[inline(never)]
pub(crate) fn copied<T: Body>(
    c: Cursor,
    s: &[u8],
    h: Heading,
    n: usize,
    own: &mut [T],
    list: &mut [T],
) -> Result<Found, Refused>
    requires within { Within c (length s.now) × HeadingFor T.of_family h × (n ≤ longest_list) }
    requires room { (n ≤ length own.old) × (n ≤ length list.old) }
    ensures { ToldListed h n s.now c (map T.number list.old) (map T.number list.new) result }
{
    let d = read_bodies::keep(c, s, h, n, own)?;
    copy(own, n, list);
    Ok(Found::Record(h, n, d.at()))
}

// The values of which records are read. An own list is an array, whose size in bytes is known only where its values' type is: so each type
// makes its own.
pub trait Listed: Body {
    // The list after a heading. A short one has an own list that is as short, which costs less to clear.
    fn listed(
        c: Cursor,
        s: &[u8],
        h: Heading,
        n: usize,
        list: &mut [Self],
    ) -> Result<Found, Refused>
        requires { Within c (length s.now) × HeadingFor Self.of_family h × (n ≤ longest_list) × (n ≤ length list.old) }
        ensures { ToldListed h n s.now c (map Self.number list.old) (map Self.number list.new) result };
}

pub fn read<T: Listed>(c: Cursor, s: &[u8], kind: Kind, list: &mut [T]) -> Result<Found, Refused>
    requires { Within c (length s.now) × (family_of (kind_of kind) ≡ T.of_family) }
    ensures { ToldRead (kind_of kind) s.now c (map T.number list.old) (map T.number list.new) result }
{
    match read_headings::read(c, s, Some(kind), list.len())? {
        Begun::Body(h, n, d) => T::listed(d, s, h, n, list),
        Begun::End(d) => Ok(Found::End(d.at())),
    }
}
