// Runs the cases that standard input lists, one on a line, and prints each line again with what comes back. The gate compares that
// with the file stdout.
#![tactic(auto)]

use inputs::read_full;
use std::io;

mod call;
mod case;
mod entry;
mod item;
mod memory;
mod say;
mod words;

// Each line, and what comes back of it.
fn lines(rt: &impl Print, text: &[u8]) -> io::Result<()> {
    for ended in text.split_inclusive(|&b| b == b'\n') {
        let line = ended.strip_suffix(b"\n").unwrap_or(ended);
        say::text(rt, line)?;
        case::answer(rt, line)?;
        say::text(rt, b"\n")?;
    }
    Ok(())
}

fn main(rt: HostRuntime) -> io::Result<()> {
    let mut text = [0u8; 65536];
    let count = read_full(&mut rt.stdin(), &mut text)?;
    lines(&rt, &text[..count])?;
    if count == text.len() {
        say::text(&rt, b"more cases than there is room for\n")?;
    }
    Ok(())
}
