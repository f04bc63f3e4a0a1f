// A record, the end of a stream and a refusal, each as a line of text at the start of a lent buffer. Each function answers how many bytes
// the line has.
#![tactic(auto)]

ghost use Rattle.std.specs.Prelude.{[], ◌∷◌, map, ◌+◌, ◌≤◌, pos, length};
ghost use Rattle.format.specs.Limits.{longest_list};
ghost use Rattle.format.specs.Kinds.{kind_number};
ghost use Rattle.format.specs.Records.{code_number};
ghost use Rattle.headings.specs.Headings.{code_of, carried, kind_of, headed};
ghost use Rattle.lines.specs.Text.{longest_line, Numbers, RecordLine, EndLine, RefusalLine, Stands};
ghost use Rattle.lines.specs.Laws.Room.{room};

use headings::Heading;
use limits::LONGEST_LIST;

mod numbers;

pub use numbers::Numeral;

// Room for every line.
pub const LONGEST_LINE: usize = 12 * LONGEST_LIST + 44;

// A list's numbers, where so many more stand after them in their line.
fn values<T: Numeral>(out: &mut [u8], begun: usize, list: &[T], after: usize) -> usize
    requires { (begun + room (map T.number list.now) ≤ length out.old) × (length list.now ≤ longest_list) × (after ≤ longest_list) }
    ensures stands { Stands (Numbers after (map T.number list.now)) out.old begun out.new result }
    ensures upper_bound { result ≤ begun + room (map T.number list.now) }
{
    let mut at = begun;
    for (i, &v) in list.iter().enumerate() {
        at = numbers::number(out, at, v.wide(), list.len() - i - 1 + after);
    }
    at
}

// What stands before a record's values.
fn heading(out: &mut [u8], h: Heading, count: usize) -> usize
    requires { (44 ≤ length out.old) × (count ≤ longest_list) }
    ensures stands { Stands (Numbers count (pos (code_number (code_of h.code)) ∷ pos (kind_number (kind_of h.kind)) ∷ pos (carried h.code) ∷ pos count ∷ [])) out.old 0 out.new result }
    ensures upper_bound { result ≤ 44 }
{
    let code_number = headings::code_number(h.code);
    let kind_number = u32::from(h.kind);
    let parameter = headings::parameter(h.code);
    let number = count as u32;
    let numbers = [code_number, kind_number, parameter, number];
    values(out, 0, &numbers, count)
}

// The line of a record.
pub fn record<T: Numeral>(out: &mut [u8], h: Heading, list: &[T]) -> usize
    requires { (longest_line ≤ length out.old) × (length list.now ≤ longest_list) }
    ensures stands { Stands (RecordLine (headed h (map T.number list.now))) out.old 0 out.new result }
    ensures upper_bound { result ≤ longest_line }
{
    let begun = heading(out, h, list.len());
    values(out, begun, list, 0)
}

// The line of the end mark.
pub fn end(out: &mut [u8]) -> usize
    requires { longest_line ≤ length out.old }
    ensures stands { Stands EndLine out.old 0 out.new result }
    ensures upper_bound { result ≤ longest_line }
{
    numbers::append(out, 0, b"end\n")
}

// The line of a refusal. 32 bits hold every bit that is told.
pub fn refusal(out: &mut [u8], answer: u32, bit: u32) -> usize
    requires { longest_line ≤ length out.old }
    ensures stands { Stands (RefusalLine answer bit) out.old 0 out.new result }
    ensures upper_bound { result ≤ longest_line }
{
    let after_word = numbers::append(out, 0, b"refused ");
    values(out, after_word, &[answer, bit], 0)
}
