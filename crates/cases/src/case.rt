// A line that is a case: taken apart, called, and what comes back.
use crate::entry::Entry;
use crate::item::Base;
use crate::memory::ROOM;
use crate::{call, item, memory, say};
use std::io;

// A line in two at the first of a byte, and all of it before that if there is none.
fn cut(line: &[u8], by: u8) -> (&[u8], &[u8]) {
    let mut parts = line.splitn(2, |&b| b == by);
    (parts.next().unwrap_or(line), parts.next().unwrap_or(&[]))
}

// The name of an entry, the numbers after it, and what is lent: the bytes after a bar, and the list after another.
fn run(rt: &impl Print, line: &[u8]) -> Option<io::Result<()>> {
    let (name, given) = cut(line, b' ');
    let (numbers, lent) = cut(given, b'|');
    let (bytes, values) = cut(lent, b'|');
    let mut n = [0u32; 4];
    let mut list = [0u32; ROOM];
    let mut buf = [0u8; ROOM];
    let entry = Entry::named(name)?;
    let given = item::items(numbers, Base::Ten, &mut n)?;
    let size = item::items(bytes, Base::Sixteen, &mut list)?;
    memory::narrow(&list[..size], &mut buf);
    let count = item::items(values, Base::Ten, &mut list)?;
    Some(call::call(rt, entry, &n[..given], &mut buf[..size], &mut list[..count]))
}

// What comes after the line itself. An empty line and a remark are for the reader alone.
pub(crate) fn answer(rt: &impl Print, line: &[u8]) -> io::Result<()> {
    if line.is_empty() || line.starts_with(b"#") {
        return Ok(());
    }
    say::text(rt, b" =")?;
    match run(rt, line) {
        Some(done) => done,
        None => say::not_a_case(rt),
    }
}
