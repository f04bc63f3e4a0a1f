// A word of delta: the number of its binary digits in gamma, then the digits, the leading one included.
ghost use Rattle.std.specs.Prelude.{◌≡◌, ◌≤◌, length};
ghost use Rattle.format.specs.Codes.{Word, delta};
ghost use Rattle.pen.specs.Pen.{Room, Drawn};

use crate::gamma;
use bits::length;
use pen::Pen;

pub fn count(w: u32) -> u64
    requires { Word w }
    ensures { (result ≡ length (delta w)) × (result ≤ 43) }
{
    let digits = length::length(w);
    gamma::count(digits as u32) + digits as u64
}

pub fn write(buf: &mut [u8], pen: Pen, w: u32) -> Pen
    requires { Word w × Room (delta w) buf.old pen }
    ensures { Drawn (delta w) buf.old pen buf.new result }
{
    let digits = length::length(w);
    // a length has 6 digits at most, so its gamma word is one field
    let size = length::length(digits as u32);
    let after_length = pen.field(buf, size - 1 + size, digits as u32);
    after_length.field(buf, digits, w)
}
