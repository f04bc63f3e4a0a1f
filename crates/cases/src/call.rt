// The entries, called with a case's numbers, bytes and list.
ghost use Rattle.std.specs.Prelude.{◌≤◌, length};

use crate::entry::Entry;
use crate::memory::ROOM;
use crate::{memory, say, words};
use bits::BitPos;
use moortangle::{end, find, record, stream};
use std::io;

// A number that is a place: -1 is the largest that there is.
fn place(n: u32) -> usize {
    if n == u32::MAX {
        return usize::MAX;
    }
    n as usize
}

fn bit(n: u32) -> BitPos {
    BitPos::new(place(n))
}

// A list written, and the bytes after it.
fn write(
    rt: &impl Print,
    start: BitPos,
    code: u32,
    parameter: u32,
    kind: u32,
    buf: &mut [u8],
    list: &[u32],
) -> io::Result<()> {
    say::wrote(rt, record::write(buf, start, code, parameter, kind, list))?;
    say::bytes(rt, buf)
}

fn write_corrections(
    rt: &impl Print,
    start: BitPos,
    code: u32,
    parameter: u32,
    kind: u32,
    buf: &mut [u8],
    list: &[u32],
) -> io::Result<()>
    requires { length list.now ≤ 65537 }
{
    let mut own = [0i32; ROOM];
    memory::corrections(list, &mut own);
    let signed = &own[..list.len()];
    say::wrote(
        rt,
        record::write_corrections(buf, start, code, parameter, kind, signed),
    )?;
    say::bytes(rt, buf)
}

fn write_end(rt: &impl Print, start: BitPos, buf: &mut [u8]) -> io::Result<()> {
    say::wrote(rt, end::write_end(buf, start))?;
    say::bytes(rt, buf)
}

fn write_word(
    rt: &impl Print,
    start: BitPos,
    code: u32,
    k: u32,
    word: u32,
    buf: &mut [u8],
) -> io::Result<()> {
    words::write(rt, start, code, k, word, buf)?;
    say::bytes(rt, buf)
}

// A list read, and all of it after that.
fn read(
    rt: &impl Print,
    start: BitPos,
    stop: BitPos,
    kind: u32,
    s: &[u8],
    list: &mut [u32],
) -> io::Result<()> {
    say::read(rt, record::read(s, start, stop, kind, list))?;
    say::values(rt, list)
}

// Corrections are read into a list of their own.
fn read_corrections(
    rt: &impl Print,
    start: BitPos,
    stop: BitPos,
    kind: u32,
    s: &[u8],
    list: &[u32],
) -> io::Result<()>
    requires { length list.now ≤ 65537 }
{
    let mut own = [0i32; ROOM];
    memory::corrections(list, &mut own);
    let signed = &mut own[..list.len()];
    say::read(rt, record::read_corrections(s, start, stop, kind, signed))?;
    say::corrections(rt, signed)
}

// What comes back, and then the lent memory that an entry may have changed.
pub(crate) fn call(
    rt: &impl Print,
    entry: Entry,
    numbers: &[u32],
    buf: &mut [u8],
    list: &mut [u32],
) -> io::Result<()>
    requires { length list.old ≤ 65537 }
{
    match (entry, numbers) {
        (Entry::Write, &[start, code, parameter, kind]) => {
            write(rt, bit(start), code, parameter, kind, buf, list)
        }
        (Entry::WriteCorrections, &[start, code, parameter, kind]) => {
            write_corrections(rt, bit(start), code, parameter, kind, buf, list)
        }
        (Entry::WriteEnd, &[start]) => write_end(rt, bit(start), buf),
        (Entry::WriteWord, &[start, code, k, word]) => {
            write_word(rt, bit(start), code, k, word, buf)
        }
        (Entry::Read, &[start, stop, kind]) => read(rt, bit(start), bit(stop), kind, buf, list),
        (Entry::ReadCorrections, &[start, stop, kind]) => {
            read_corrections(rt, bit(start), bit(stop), kind, buf, list)
        }
        (Entry::ReadWord, &[start, stop, code, k]) => {
            words::read(rt, bit(start), bit(stop), code, k, buf)
        }
        (Entry::LookUp, &[start, stop, n, kind]) => say::answer(
            rt,
            find::look_up(buf, bit(start), bit(stop), kind, place(n)),
        ),
        (Entry::LookUpCorrection, &[start, stop, n, kind]) => say::answer(
            rt,
            find::look_up_correction(buf, bit(start), bit(stop), kind, place(n)),
        ),
        (Entry::Search, &[start, stop, sought]) => {
            say::answer(rt, find::search(buf, bit(start), bit(stop), sought))
        }
        (Entry::Check, &[]) => say::checked(rt, stream::check(buf)),
        (Entry::CountWord, &[code, k, word]) => words::count(rt, code, k, word),
        _ => say::not_a_case(rt),
    }
}
