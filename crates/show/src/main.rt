// Reads a stream from standard input and prints its records, or why it is no stream. Every line is gathered whole in a lent buffer, and
// what stands there is stated; then it is written.
#![tactic(auto)]

ghost use Rattle.std.specs.Prelude.{◌≡◌, ◌+◌, ◌<◌, ◌≤◌, length, take, IfOk};
ghost use Rattle.format.specs.Limits.{longest_buffer, longest_list};
ghost use Rattle.lines.specs.Text.{longest_line};
ghost use Rattle.show.specs.Next.{GoesOn};
ghost use Rattle.show.specs.Steps.{Begins};

use bits::BitPos;
use limits::{LONGEST_BUFFER, LONGEST_LIST};
use lines::LONGEST_LINE;
use reading::Refused;
use std::io;

mod records;

// One byte more than a stream may have: so a longer one is known by its length, and is not read on.
const INPUT: usize = LONGEST_BUFFER + 1;

fn room() -> [u8; INPUT]
    ensures { longest_buffer + 1 ≡ length result }
{
    [0; INPUT]
}

fn room_for_a_line() -> [u8; LONGEST_LINE]
    ensures { longest_line ≡ length result }
{
    [0; LONGEST_LINE]
}

// The stream is checked whole before anything is printed: a stream that is refused shows no record. Where there is none, the error is how
// many bytes the line has that tells why.
fn begin(s: &[u8], out: &mut [u8]) -> Result<(), usize>
    requires { longest_line ≤ length out.old }
    ensures { Begins s.now out.new result }
{
    match moortangle::stream::check(s) {
        Ok(_) => Ok(()),
        Err(Refused { why, at }) => {
            let answer = u32::from(why);
            let bit = at.bit() as u32;
            Err(lines::refusal(out, answer, bit))
        }
    }
}

fn write(rt: &impl Print, out: &[u8], bytes: usize) -> io::Result<()>
    requires { bytes ≤ length out.now }
{
    rt.write_all(&out[..bytes])
}

// Every line, up to the end's. Each record begins after the one before it, so there is a last one.
fn print(
    rt: &impl Print,
    s: &[u8],
    values: &mut [u32],
    corrections: &mut [i32],
    out: &mut [u8],
) -> io::Result<()>
    requires goes_on { GoesOn s.now 0 × (longest_line ≤ length out.old) }
    requires longest_list_in_bounds { (longest_list ≤ length values.old) × (longest_list ≤ length corrections.old) }
{
    let mut next = Some(BitPos::new(0));
    while let Some(at) = next {
        let line = records::step(s, at, values, corrections, out);
        write(rt, out, line.bytes)?;
        next = line.next;
    }
    Ok(())
}

fn show(rt: &impl Print, s: &[u8]) -> io::Result<()> {
    let mut values = [0u32; LONGEST_LIST];
    let mut corrections = [0i32; LONGEST_LIST];
    let mut out = room_for_a_line();
    match begin(s, &mut out) {
        Ok(()) => print(rt, s, &mut values, &mut corrections, &mut out),
        Err(bytes) => write(rt, &out, bytes),
    }
}

fn main(rt: HostRuntime) -> io::Result<()> {
    let mut input = room();
    let count = inputs::read_full(&mut rt.stdin(), &mut input)?;
    show(&rt, &input[..count])
}
