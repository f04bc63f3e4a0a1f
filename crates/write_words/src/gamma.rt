// A word of gamma: a zero for each binary digit of the word but one, then the digits.
ghost use Rattle.std.specs.Prelude.{◌≡◌, ◌≤◌, length};
ghost use Rattle.format.specs.Codes.{Word, gamma};
ghost use Rattle.pen.specs.Pen.{Room, Drawn};

use bits::length;
use pen::Pen;

pub fn count(w: u32) -> u64
    requires { Word w }
    ensures { (result ≡ length (gamma w)) × (result ≤ 63) }
{
    2 * length::length(w) as u64 - 1
}

pub fn write(buf: &mut [u8], pen: Pen, w: u32) -> Pen
    requires { Word w × Room (gamma w) buf.old pen }
    ensures { Drawn (gamma w) buf.old pen buf.new result }
{
    let digits = length::length(w);
    pen.led(buf, digits - 1, digits, w)
}
