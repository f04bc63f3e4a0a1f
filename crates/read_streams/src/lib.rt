// A whole stream: any number of records of both families, the end mark, and zeros to the byte's end.
#![tactic(auto)]

ghost use Rattle.std.specs.Prelude.{◌≤◌, length};
ghost use Rattle.format.specs.Limits.{longest_list};
ghost use Rattle.format.specs.Reading.{Padding, Check};
ghost use Rattle.bits.specs.Cursor.{Within, left};
ghost use Rattle.lists.specs.Tests.{Unless};
ghost use Rattle.read_headings.specs.Told.{body_of};
ghost use Rattle.read_bodies.specs.Bodies.{HeadingOk, HeadingFor};
ghost use Rattle.read_streams.specs.Told.{ToldPassed, checked};

use bits::Cursor;
use headings::{Heading, Kind};
use limits::LONGEST_LIST;
use read_bodies::Body;
use read_headings::Begun;
use reading::{Refusal, Refused};

// What the stream check finds: how many records a stream has, and how many values they have.
#[derive(Clone, Copy)]
pub struct Checked {
    pub records: usize,
    pub values: usize,
}

// A body judged, for whoever asks no more of it than where it ends.
fn pass_as<T: Body>(c: Cursor, s: &[u8], h: Heading, n: usize) -> Result<Cursor, Refused>
    requires { Within c (length s.now) × HeadingFor T.of_family h × (n ≤ longest_list) }
    ensures { ToldPassed (body_of h n) s.now c result }
{
    let judged = read_bodies::judge::<T>(c, s, h, n, 0, 0)?;
    Ok(judged.after)
}

fn pass(c: Cursor, s: &[u8], h: Heading, n: usize) -> Result<Cursor, Refused>
    requires { Within c (length s.now) × HeadingOk h × (n ≤ longest_list) }
    ensures { ToldPassed (body_of h n) s.now c result }
{
    let kind = h.kind;
    match kind {
        Kind::Plain => pass_as::<u32>(c, s, h, n),
        Kind::Instants => pass_as::<u32>(c, s, h, n),
        Kind::Corrections => pass_as::<i32>(c, s, h, n),
    }
}

// Whether what is left after an end mark is not zeros to the byte's end.
fn unclean(c: Cursor, s: &[u8]) -> bool
    requires { Within c (length s.now) }
    ensures { Unless (Padding (left c s.now)) result }
{
    let rest = c.left();
    let longer = 7 < rest;
    if longer {
        return true;
    }
    bits::number::number(s, c.at().bit(), rest) != 0
}

pub fn check(start: Cursor, s: &[u8]) -> Result<Checked, Refused>
    requires { Within start (length s.now) }
    ensures { Check start.stop.0 (checked result) (left start s.now) 0 0 }
{
    let mut c = start;
    let mut records = 0;
    let mut values = 0;
    loop {
        match read_headings::read(c, s, None, LONGEST_LIST)? {
            Begun::Body(h, n, d) => {
                let e = pass(d, s, h, n)?;
                records += 1;
                values += n;
                c = e;
            }
            Begun::End(d) => {
                if unclean(d, s) {
                    return Err(Refused {
                        why: Refusal::Unclean,
                        at: d.at(),
                    });
                }
                return Ok(Checked { records, values });
            }
        }
    }
}
