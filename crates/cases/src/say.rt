// What is printed of an answer, after a space each.
use bits::BitPos;
use headings::Heading;
use moortangle::{Checked, Found, Refused, Unwritten};
use std::fmt::Display;
use std::io;

pub(crate) fn text(rt: &impl Print, t: &[u8]) -> io::Result<()> {
    rt.write_all(t)
}

pub(crate) fn not_a_case(rt: &impl Print) -> io::Result<()> {
    text(rt, b" not a case")
}

pub(crate) fn spaced<T: Display + Drop>(rt: &impl Print, v: T) -> io::Result<()> {
    print!(rt; " {v}")
}

// An answer's number, and the bit or the place that it tells.
pub(crate) fn told(rt: &impl Print, answer: u32, at: usize) -> io::Result<()> {
    spaced(rt, answer)?;
    text(rt, b" at")?;
    spaced(rt, at)
}

fn refused(rt: &impl Print, r: Refused) -> io::Result<()> {
    told(rt, u32::from(r.why), r.at.bit())
}

// The numbers are those of document 01's table, which is what a case lists.
fn unwritten(rt: &impl Print, why: Unwritten) -> io::Result<()> {
    match why {
        Unwritten::TooMany => told(rt, 1, 0),
        Unwritten::OutOfRange(place) => told(rt, 2, place),
        Unwritten::Falls(place) => told(rt, 3, place),
        Unwritten::Unknown => told(rt, 4, 0),
        Unwritten::Full => told(rt, 5, 0),
        Unwritten::Outside => told(rt, 12, 0),
    }
}

pub(crate) fn wrote(rt: &impl Print, r: Result<BitPos, Unwritten>) -> io::Result<()> {
    match r {
        Ok(next) => told(rt, 0, next.bit()),
        Err(why) => unwritten(rt, why),
    }
}

// A record's code, kind, parameter and count.
fn record(rt: &impl Print, h: Heading, count: usize) -> io::Result<()> {
    spaced(rt, headings::code_number(h.code))?;
    spaced(rt, u32::from(h.kind))?;
    spaced(rt, headings::parameter(h.code))?;
    spaced(rt, count)
}

fn found(rt: &impl Print, f: Found) -> io::Result<()> {
    match f {
        Found::Record(h, count, next) => {
            told(rt, 0, next.bit())?;
            record(rt, h, count)
        }
        Found::End(next) => {
            told(rt, 0, next.bit())?;
            text(rt, b" end")
        }
    }
}

pub(crate) fn read(rt: &impl Print, r: Result<Found, Refused>) -> io::Result<()> {
    match r {
        Ok(f) => found(rt, f),
        Err(e) => refused(rt, e),
    }
}

// The value that was looked up, or how many are below the one that was sought.
pub(crate) fn answer<T: Display + Drop>(rt: &impl Print, r: Result<T, Refused>) -> io::Result<()> {
    match r {
        Ok(v) => spaced(rt, v),
        Err(e) => refused(rt, e),
    }
}

pub(crate) fn checked(rt: &impl Print, r: Result<Checked, Refused>) -> io::Result<()> {
    match r {
        Ok(Checked { records, values }) => {
            spaced(rt, records)?;
            spaced(rt, values)
        }
        Err(e) => refused(rt, e),
    }
}

// Bytes are printed in base 16, values in base 10.
trait Item: Copy + PartialEq {
    fn print(self, rt: &impl Print) -> io::Result<()>;
}

impl Item for u8 {
    fn print(self, rt: &impl Print) -> io::Result<()> {
        print!(rt; " {self:02x}")
    }
}

impl Item for u32 {
    fn print(self, rt: &impl Print) -> io::Result<()> {
        spaced(rt, self)
    }
}

// Items that are alike: a long run as a case may give it, once, with a star and how many they are.
fn alike<T: Item>(rt: &impl Print, run: &[T]) -> io::Result<()> {
    let count = run.len();
    match run {
        [item, ..] if 8 <= count => {
            item.print(rt)?;
            text(rt, b"*")?;
            rt.print(count)
        }
        _ => {
            for item in run {
                item.print(rt)?;
            }
            Ok(())
        }
    }
}

// Lent memory after the call.
fn memory<T: Item>(rt: &impl Print, list: &[T]) -> io::Result<()> {
    text(rt, b" |")?;
    for run in list.chunk_by(|a, b| a == b) {
        alike(rt, run)?;
    }
    Ok(())
}

pub(crate) fn bytes(rt: &impl Print, buf: &[u8]) -> io::Result<()> {
    memory(rt, buf)
}

pub(crate) fn values(rt: &impl Print, list: &[u32]) -> io::Result<()> {
    memory(rt, list)
}

// Corrections are printed one by one, also where they are alike.
pub(crate) fn corrections(rt: &impl Print, list: &[i32]) -> io::Result<()> {
    text(rt, b" |")?;
    for &v in list {
        spaced(rt, v)?;
    }
    Ok(())
}
