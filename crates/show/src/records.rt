// The records of a stream that has been checked, each as a line.
ghost use Rattle.std.specs.Prelude.{map, ◌≤◌, pos, length, take};
ghost use Rattle.format.specs.Limits.{longest_list};
ghost use Rattle.headings.specs.Headings.{kind_of, headed};
ghost use Rattle.lines.specs.Text.{longest_line, RecordLine};
ghost use Rattle.lists.specs.Tests.{Unless};
ghost use Rattle.show.specs.Next.{GoesOn, OtherKind, list_for, Next};
ghost use Rattle.show.specs.Steps.{Gathered, Steps};

use bits::BitPos;
use headings::{Heading, Kind};
use read_records::Found;
use reading::{Refusal, Refused};

// Whether an answer is something else than 7, so that no other kind has to be asked for.
fn is_settled(answer: Result<Found, Refused>) -> bool
    ensures { Unless (OtherKind answer) result }
{
    match answer {
        Ok(_) => true,
        Err(refused) => refused.why != Refusal::Unknown,
    }
}

// What stands next. A record tells its kind, but a reader has to be asked for one: so each kind is asked for in turn. A reader
// answers 7 before it reads the list if the record is of another kind, and in a stream that has been checked 7 means nothing else.
fn next(s: &[u8], at: BitPos, values: &mut [u32], corrections: &mut [i32]) -> Result<Found, Refused>
    requires { GoesOn s.now at.0 × (longest_list ≤ length values.old) × (longest_list ≤ length corrections.old) }
    ensures { Next s.now at.0 (list_for (map pos values.new) corrections.new) result }
{
    let stop = BitPos::new(8 * s.len());
    let plain = moortangle::record::read(s, at, stop, 0, values);
    if is_settled(plain) {
        return plain;
    }
    let instants = moortangle::record::read(s, at, stop, 1, values);
    if is_settled(instants) {
        return instants;
    }
    moortangle::record::read_corrections(s, at, stop, 2, corrections)
}

// A record's line. Its values stand in the list of its kind.
fn record_line(
    out: &mut [u8],
    h: Heading,
    count: usize,
    values: &[u32],
    corrections: &[i32],
) -> usize
    requires longest_line_in_bounds { (longest_line ≤ length out.old) × (count ≤ longest_list) }
    requires count_in_bounds { (count ≤ length values.now) × (count ≤ length corrections.now) }
    ensures { Gathered (RecordLine (headed h (take count (list_for (map pos values.now) corrections.now (kind_of h.kind))))) out.new result }
{
    let kind = h.kind;
    match kind {
        Kind::Plain | Kind::Instants => lines::record(out, h, &values[..count]),
        Kind::Corrections => lines::record(out, h, &corrections[..count]),
    }
}

// How many bytes a line has that was gathered, and the bit where the next one's record begins, unless it is the last line.
#[derive(Clone, Copy)]
pub(crate) struct Line {
    pub(crate) bytes: usize,
    pub(crate) next: Option<BitPos>,
}

// The line of what stands next.
pub(crate) fn step(
    s: &[u8],
    at: BitPos,
    values: &mut [u32],
    corrections: &mut [i32],
    out: &mut [u8],
) -> Line
    requires goes_on { GoesOn s.now at.0 × (longest_line ≤ length out.old) }
    requires longest_list_in_bounds { (longest_list ≤ length values.old) × (longest_list ≤ length corrections.old) }
    ensures { Steps s.now at.0 out.new result }
{
    match next(s, at, values, corrections) {
        Ok(Found::Record(h, count, after)) => {
            let bytes = record_line(out, h, count, values, corrections);
            Line {
                bytes,
                next: Some(after),
            }
        }
        Ok(Found::End(_)) => Line {
            bytes: lines::end(out),
            next: None,
        },
        // never, since the stream was checked: `next` does not refuse
        Err(_) => Line {
            bytes: 0,
            next: None,
        },
    }
}
