// The body of a record that is read word by word: judged without a list, and kept in an own one.
#![tactic(auto)]

ghost use Rattle.std.specs.Prelude.{◌≡◌, [], ◌∷◌, map, ◌+◌, ◌≤◌, ◌<◌, pos, length};
ghost use Rattle.format.specs.Limits.{longest_list};
ghost use Rattle.format.specs.Kinds.{family_of};
ghost use Rattle.format.specs.Reading.{below};
ghost use Rattle.format.specs.Records.{words_by};
ghost use Rattle.bits.specs.Cursor.{Within};
ghost use Rattle.headings.specs.Headings.{kind_of};
ghost use Rattle.headings.specs.Bodies.{image_by};
ghost use Rattle.reading.specs.Judging.{ToldJudged, ToldKept};
ghost use Rattle.reading.specs.Stored.{Put};
ghost use Rattle.read_lists.specs.Through.{GoneThrough};

use bits::Cursor;
use headings::Kind;
use headings::bodies::Words;
use read_values::{FromWord, next};
use reading::{Judged, Refused};

// The value at the asked place among those so far, where x is the one at i.
fn kept<T: Copy>(old: T, i: usize, place: usize, x: T) -> T
    ensures { (i ≡ place → result ≡ x) × ((i ≡ place → ⊥) → result ≡ old) }
{
    if i == place { x } else { old }
}

// How many of those so far are below the sought one, where x is one more.
fn counted(less: usize, x: u32, sought: u32) -> usize
    requires { less < longest_list }
    ensures { (result ≡ less + below sought (pos x ∷ [])) × (result ≤ less + 1) }
{
    if x < sought { less + 1 } else { less }
}

// A value in its place of a list, where the list has the place.
fn put<T: Copy>(list: &mut [T], i: usize, x: T)
    ensures { Put list.old i x list.new }
{
    if i < list.len() {
        list[i] = x;
    }
}

// The n values, judged one after the other, and put in front of a list that has room for them. Judging and keeping are one loop, so that
// the compiler takes `next` into it.
fn go_through<T: FromWord>(
    start: Cursor,
    s: &[u8],
    code: Words,
    kind: Kind,
    n: usize,
    place: usize,
    sought: u32,
    list: &mut [T],
) -> Result<Judged<T>, Refused>
    requires within { Within start (length s.now) × (n ≤ longest_list) }
    requires family { family_of (kind_of kind) ≡ T.of_family }
    ensures { GoneThrough T.number (words_by (image_by code) (kind_of kind) n) n place sought s.now start list.old list.new result }
{
    let mut c = start;
    let mut before = T::zero();
    let mut value = T::zero();
    let mut less = 0;
    for i in 0..n {
        // a copy for the call, as `Words` says
        let by = code;
        let (x, d) = next(c, s, by, kind, before)?;
        value = kept(value, i, place, x);
        less = counted(less, x.natural(), sought);
        put(list, i, x);
        before = x;
        c = d;
    }
    Ok(Judged {
        value,
        below: less,
        after: c,
    })
}

// The n values, judged without a list.
pub fn judge<T: FromWord>(
    start: Cursor,
    s: &[u8],
    code: Words,
    kind: Kind,
    n: usize,
    place: usize,
    sought: u32,
) -> Result<Judged<T>, Refused>
    requires within { Within start (length s.now) × (n ≤ longest_list) }
    requires family { family_of (kind_of kind) ≡ T.of_family }
    ensures { ToldJudged T.number (words_by (image_by code) (kind_of kind) n) place sought s.now start result }
{
    let mut none = [T::zero(); 0];
    go_through(start, s, code, kind, n, place, sought, &mut none)
}

// The n values, put in front of an own list.
pub fn keep<T: FromWord>(
    start: Cursor,
    s: &[u8],
    code: Words,
    kind: Kind,
    n: usize,
    own: &mut [T],
) -> Result<Cursor, Refused>
    requires within { Within start (length s.now) × (n ≤ length own.old) × (n ≤ longest_list) }
    requires family { family_of (kind_of kind) ≡ T.of_family }
    ensures { ToldKept (words_by (image_by code) (kind_of kind) n) n s.now start (map T.number own.old) (map T.number own.new) result }
{
    let judged = go_through(start, s, code, kind, n, 0, 0, own)?;
    Ok(judged.after)
}
