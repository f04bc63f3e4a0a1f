// Numbers as text.
ghost use Rattle.std.specs.Prelude.{◌≡◌, [], ◌∷◌, ◌+◌, ◌^◌, ◌≤◌, ◌<◌, nat_abs, length};
ghost use Rattle.std.proofs.Math.Seq.{paste};
ghost use Rattle.lines.specs.Text.{Decimal, separator as Text·separator, Numbers, Stands};
ghost use Rattle.lines.specs.Laws.Room.{sign as Room·sign};

use lists::Item;

// A list's value as one kind of number: it has a sign, and 32 bits hold it without that.
pub trait Numeral: Item {
    fn wide(self) -> i64
        ensures value { result ≡ Self.number self }
        ensures size { nat_abs result < 2 ^ 32 };
}

impl Numeral for u32 {
    fn wide(self) -> i64 {
        i64::from(self)
    }
}

impl Numeral for i32 {
    fn wide(self) -> i64 {
        i64::from(self)
    }
}

// Puts a text into a buffer, and answers the place after it.
pub(crate) fn append(out: &mut [u8], at: usize, text: &[u8]) -> usize
    requires { at + length text.now ≤ length out.old }
    ensures value { result ≡ at + length text.now }
    ensures out_after { out.new ≡ paste out.old at text.now (length text.now) }
{
    for (i, &b) in text.iter().enumerate() {
        out[at + i] = b;
    }
    at + text.len()
}

// A number's digits: 32 bits have at most ten.
fn decimal(out: &mut [u8], at: usize, n: u32) -> usize
    requires { at + 10 ≤ length out.old }
    ensures stands { Stands (Decimal n) out.old at out.new result }
    ensures upper_bound { result ≤ at + 10 }
{
    let mut digits = itoa::Buffer::new();
    let text = digits.format(n).as_bytes();
    append(out, at, text)
}

fn separator(more: usize) -> u8
    ensures { result ≡ Text·separator more }
{
    if more == 0 { b'\n' } else { b' ' }
}

// A minus below zero, and else nothing.
fn sign(out: &mut [u8], at: usize, v: i64) -> usize
    requires { at + length (Room·sign v) ≤ length out.old }
    ensures { Stands (λ t. t ≡ Room·sign v) out.old at out.new result }
{
    if 0 <= v {
        return at;
    }
    append(out, at, b"-")
}

// A number, and what follows it where so many more stand in its line.
pub(crate) fn number(out: &mut [u8], at: usize, v: i64, more: usize) -> usize
    requires { (at + length (Room·sign v) + 11 ≤ length out.old) × (nat_abs v < 2 ^ 32) }
    ensures stands { Stands (Numbers more (v ∷ [])) out.old at out.new result }
    ensures upper_bound { result ≤ at + length (Room·sign v) + 11 }
{
    let after_sign = sign(out, at, v);
    let end = decimal(out, after_sign, v.unsigned_abs() as u32);
    out[end] = separator(more);
    end + 1
}
