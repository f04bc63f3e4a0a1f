// The body of code 5: the last instant in delta, then the rising list of the others by halves. Its bits counted without writing them, and written in a buffer.
#![tactic(auto)]

ghost use Rattle.std.specs.Prelude.{◌≡◌, ◌+◌, ◌-◌, ◌*◌, ◌/◌, ◌^◌, ◌≤◌, ◌<◌, length, get_or};
ghost use Rattle.format.specs.Limits.{longest_list, largest_instant};
ghost use Rattle.format.specs.Interpolative.{width, interpolative};
ghost use Rattle.format.specs.Laws.Interpolative.{NeverFalls};
ghost use Rattle.pen.specs.Pen.{Room, Drawn};
ghost use Rattle.write_interpolative.specs.Parts.{image, Ready, Halves, Body};

use bits::length;
use pen::Pen;
use write_words::delta;

// The fewest bits that tell so many possible values apart.
fn width(possible: usize) -> usize
    requires { (1 ≤ possible) × (possible ≤ 2 ^ 32) }
    ensures { (result ≡ width possible) × (result ≤ 32) }
{
    length::length((possible - 1) as u32)
}

// The element of the rising list after so many others.
fn number_at(values: &[u32], place: usize) -> usize
    requires { (place < length values.now) × (place < longest_list) }
    ensures { result ≡ get_or values.now place 0 + (place + 1) }
{
    values[place] as usize + (place + 1)
}

// The middle of the n elements after the first `start`, which are a part between low and hi.
fn middle(values: &[u32], start: usize, n: usize, low: usize, hi: usize) -> usize
    requires ready { Ready values.now start n low hi × (1 ≤ n) × (low + n ≤ hi + 1) }
    requires there { (start + n ≤ length values.now) × (start + n ≤ longest_list) }
    ensures { Halves values.now start n low hi result × (low + (n - 1) / 2 ≤ result) × (result + n / 2 ≤ hi) }
{
    number_at(values, start + (n - 1) / 2)
}

// How many bits the n elements after the first `start` have, as a part between low and hi.
fn count_part(values: &[u32], start: usize, n: usize, low: usize, hi: usize) -> usize
    requires ready { Ready values.now start n low hi }
    requires room { (start < low) × (low + n ≤ hi + 1) × (hi ≤ start + n + largest_instant) × (start + n ≤ length values.now) × (start + n ≤ longest_list) }
    ensures { (result ≡ length (image values.now start n low hi)) × (result ≤ 32 * n) }
{
    if n == 0 {
        return 0;
    }
    let own = width(hi + 2 - (low + n));
    let s = middle(values, start, n, low, hi);
    let i = (n - 1) / 2;
    let left = count_part(values, start, i, low, s - 1);
    let right = count_part(values, start + i + 1, n / 2, s + 1, hi);
    own + left + right
}

// Writes them.
fn write_part(
    buf: &mut [u8],
    pen: Pen,
    values: &[u32],
    start: usize,
    n: usize,
    low: usize,
    hi: usize,
) -> Pen
    requires ready { Ready values.now start n low hi }
    requires room { (start < low) × (low + n ≤ hi + 1) × (hi ≤ start + n + largest_instant) × (start + n ≤ length values.now) × (start + n ≤ longest_list) }
    requires space { Room (image values.now start n low hi) buf.old pen }
    ensures { Drawn (image values.now start n low hi) buf.old pen buf.new result }
{
    if n == 0 {
        return pen;
    }
    let own = width(hi + 2 - (low + n));
    let s = middle(values, start, n, low, hi);
    let i = (n - 1) / 2;
    let after_middle = pen.field(buf, own, (s - (low + i)) as u32);
    // those left of the middle end below it; those right of it begin above
    let left_hi = s - 1;
    let right_start = start + i + 1;
    let j = n / 2;
    let right_low = s + 1;
    let after_left = write_part(buf, after_middle, values, start, i, low, left_hi);
    write_part(buf, after_left, values, right_start, j, right_low, hi)
}

// The last of the instants, which has so many others before it.
fn last(values: &[u32], others: usize) -> u32
    requires { NeverFalls 0 values.now × (length values.now ≡ others + 1) }
    ensures { Body values.now others result × (result ≤ largest_instant) }
{
    values[others]
}

pub fn count(values: &[u32]) -> u64
    requires { NeverFalls 0 values.now × (length values.now ≤ longest_list) }
    ensures { (result ≡ length ((interpolative (length values.now)).bits values.now)) × (result ≤ 131083) }
{
    let n = values.len();
    if n == 0 {
        return 0;
    }
    let others = n - 1;
    let last = last(values, others);
    delta::count(last + 1) + count_part(values, 0, others, 1, last as usize + others) as u64
}

pub fn write(buf: &mut [u8], pen: Pen, values: &[u32]) -> Pen
    requires never_falls { NeverFalls 0 values.now × (length values.now ≤ longest_list) }
    requires room { Room ((interpolative (length values.now)).bits values.now) buf.old pen }
    ensures { Drawn ((interpolative (length values.now)).bits values.now) buf.old pen buf.new result }
{
    let n = values.len();
    if n == 0 {
        return pen;
    }
    let others = n - 1;
    let last = last(values, others);
    let after_last = delta::write(buf, pen, last + 1);
    write_part(
        buf,
        after_last,
        values,
        0,
        others,
        1,
        last as usize + others,
    )
}
