// The body of code 5, judged and kept in an own list.
#![tactic(auto)]

ghost use Rattle.std.specs.Prelude.{◌≡◌, map, ◌+◌, ◌-◌, ◌*◌, ◌≤◌, ◌<◌, pos, length, set};
ghost use Rattle.format.specs.Limits.{longest_buffer, longest_list, largest_instant};
ghost use Rattle.format.specs.Codes.{Word};
ghost use Rattle.bits.specs.Cursor.{Within};
ghost use Rattle.bits.specs.declared.Cursor.{Cursor};
ghost use Rattle.reading.specs.Judging.{ToldKept};
ghost use Rattle.read_middles.specs.Parts.{instants_of, LastRead};
ghost use Rattle.keep_interpolative.specs.Parts.{KeptPart};

use bits::{BitPos, Cursor};
use read_middles::{read_middle, refused};
use read_words::delta;
use reading::Refused;

// Puts an instant into a list.
fn store(list: &mut [u32], i: usize, t: u32)
    requires { i < length list.old }
    ensures { list.new ≡ set list.old i t }
{
    list[i] = t;
}

// Keeps the instants of n elements between low and hi, from the place `start` on, and tells the bit after them; or beyond the stop a
// refusal. It stands beside `judge_part`, which leaves out the parts whose values are determined: here each has to be written.
fn keep_part(
    s: &[u8],
    at: usize,
    stop: usize,
    list: &mut [u32],
    start: usize,
    n: usize,
    low: usize,
    hi: usize,
) -> usize
    requires place { (at ≤ stop) × (stop ≤ 8 * length s.now) × (length s.now ≤ longest_buffer) }
    requires room { (start < low) × (low + n ≤ hi + 1) × (hi ≤ start + n + largest_instant) × (start + n ≤ length list.old) × (start + n ≤ longest_list) }
    ensures { KeptPart start n low hi list.old list.new s.now at stop result }
{
    if n == 0 {
        return at;
    }
    let m = read_middle(s, at, stop, n, low, hi);
    let after = m.next;
    let element = m.element;
    if stop < after {
        return after;
    }
    let i = (n - 1) / 2;
    store(list, start + i, (element - (start + i + 1)) as u32);
    if n == 1 {
        return after;
    }
    // those left of the middle end below it; those right of it begin above
    let left_hi = element - 1;
    let right_start = start + i + 1;
    let j = n / 2;
    let right_low = element + 1;
    let next = keep_part(s, after, stop, list, start, i, low, left_hi);
    if stop < next {
        return next;
    }
    keep_part(s, next, stop, list, right_start, j, right_low, hi)
}

// Keeps the n instants of which the last, wherever it has been read, has the word w: the others are left to be read.
fn keep_others(
    s: &[u8],
    at: usize,
    stop: usize,
    own: &mut [u32],
    n: usize,
    w: u32,
) -> Result<Cursor, Refused>
    requires place { (at ≤ stop) × (stop ≤ 8 * length s.now) × (length s.now ≤ longest_buffer) }
    requires room { (1 ≤ n) × (n ≤ longest_list) × (n ≤ length own.old) × Word w }
    ensures { (c : Cursor) → LastRead n (n - 1) (w - 1) (w - 1 + (n - 1)) s.now c at stop → ToldKept (instants_of n) n s.now c (map pos own.old) (map pos own.new) result }
{
    let others = n - 1;
    let next = keep_part(s, at, stop, own, 0, others, 1, (w - 1) as usize + others);
    if stop < next {
        return Err(refused(next));
    }
    store(own, others, w - 1);
    Ok(Cursor::new(BitPos::new(next), BitPos::new(stop)))
}

pub fn keep(c: Cursor, s: &[u8], n: usize, own: &mut [u32]) -> Result<Cursor, Refused>
    requires { Within c (length s.now) × (n ≤ longest_list) × (n ≤ length own.old) }
    ensures { ToldKept (instants_of n) n s.now c (map pos own.old) (map pos own.new) result }
{
    if n == 0 {
        return Ok(c);
    }
    match delta::read(c, s) {
        Ok((w, d)) => keep_others(s, d.at().bit(), d.stop().bit(), own, n, w),
        Err(e) => Err(Refused::word(e, c.at())),
    }
}
