// A record written, or not: the public entries. Code, parameter and kind are numbers, of which any gets its answer; C calls an entry for each
// family.
#![tactic(auto)]

ghost use Rattle.std.specs.Prelude.{map, pos};
ghost use Rattle.format.specs.Kinds.{Unsigned, Signed};
ghost use Rattle.format.specs.Writing.{Writes};
ghost use Rattle.writing.specs.Wrote.{outcome_of};

use bits::BitPos;
use limits::{LONGEST_BUFFER, LONGEST_LIST};
use write_records::halves::Halved;
use writing::Unwritten;

// A list of plain values or of instants.
pub fn write(
    buf: &mut [u8],
    start: BitPos,
    code: u32,
    parameter: u32,
    kind: u32,
    values: &[u32],
) -> Result<BitPos, Unwritten>
    ensures { Writes buf.old start.0 Unsigned code parameter kind (map pos values.now) (outcome_of result) buf.new }
{
    write_list::<u32>(buf, start, code, parameter, kind, values)
}

// A list of corrections.
pub fn write_corrections(
    buf: &mut [u8],
    start: BitPos,
    code: u32,
    parameter: u32,
    kind: u32,
    values: &[i32],
) -> Result<BitPos, Unwritten>
    ensures { Writes buf.old start.0 Signed code parameter kind values.now (outcome_of result) buf.new }
{
    write_list::<i32>(buf, start, code, parameter, kind, values)
}

// A list of one family's values.
fn write_list<T: Halved>(
    buf: &mut [u8],
    start: BitPos,
    code: u32,
    parameter: u32,
    kind: u32,
    values: &[T],
) -> Result<BitPos, Unwritten>
    ensures { Writes buf.old start.0 T.of_family code parameter kind (map T.number values.now) (outcome_of result) buf.new }
{
    if LONGEST_BUFFER < buf.len() {
        return Err(Unwritten::Outside);
    }
    if 8 * buf.len() < start.bit() {
        return Err(Unwritten::Outside);
    }
    let h = headings::choose(T::family(), code, parameter, kind).ok_or(Unwritten::Unknown)?;
    if LONGEST_LIST < values.len() {
        return Err(Unwritten::TooMany);
    }
    lists::judge(h.kind, values)?;
    write_records::put(buf, start, h, values).ok_or(Unwritten::Full)
}
