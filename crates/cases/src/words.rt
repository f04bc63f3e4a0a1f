// Single words, by code. The library asks its caller for what is tested here first.
use crate::say;
use bits::{BitPos, Cursor};
use headings::bodies::{Parameter, Words};
use limits::{LARGEST_PARAMETER, LONGEST_BUFFER};
use pen::Pen;
use read_words::NoWord;
use std::io;
use write_words::by_code;

fn words(code: u32, k: u32) -> Option<Words> {
    if LARGEST_PARAMETER < k {
        return None;
    }
    match code {
        1 => Some(Words::Gamma),
        2 => Some(Words::Delta),
        3 => Some(Words::Rice(Parameter::new(k as usize))),
        4 => Some(Words::VariableByte),
        _ => None,
    }
}

// A word that is cut short tells no bit.
fn said(rt: &impl Print, r: Result<(u32, Cursor), NoWord>) -> io::Result<()> {
    match r {
        Ok((w, next)) => {
            say::told(rt, 0, next.at().bit())?;
            say::spaced(rt, w)
        }
        Err(NoWord::Cut) => say::spaced(rt, 6),
        Err(NoWord::Bad(at)) => say::told(rt, 9, at.bit()),
    }
}

pub(crate) fn read(
    rt: &impl Print,
    start: BitPos,
    stop: BitPos,
    code: u32,
    k: u32,
    s: &[u8],
) -> io::Result<()> {
    let Some(by) = words(code, k) else {
        return say::not_a_case(rt);
    };
    if LONGEST_BUFFER < s.len() || stop.bit() < start.bit() || 8 * s.len() < stop.bit() {
        return say::not_a_case(rt);
    }
    said(rt, read_any_word::word(Cursor::new(start, stop), s, by))
}

pub(crate) fn count(rt: &impl Print, code: u32, k: u32, w: u32) -> io::Result<()> {
    match words(code, k) {
        Some(by) if w != 0 => say::spaced(rt, by_code::count(by, w)),
        _ => say::not_a_case(rt),
    }
}

pub(crate) fn write(
    rt: &impl Print,
    start: BitPos,
    code: u32,
    k: u32,
    w: u32,
    buf: &mut [u8],
) -> io::Result<()> {
    let Some(by) = words(code, k) else {
        return say::not_a_case(rt);
    };
    if w == 0 || LONGEST_BUFFER < buf.len() || 8 * buf.len() < start.bit() {
        return say::not_a_case(rt);
    }
    // a copy for the call, as `Words` says
    let counted = by;
    if ((8 * buf.len() - start.bit()) as u64) < by_code::count(counted, w) {
        return say::not_a_case(rt);
    }
    let pen = Pen::open(buf, start);
    let after = by_code::write(buf, pen, by, w);
    say::told(rt, 0, after.close(buf).bit())
}
