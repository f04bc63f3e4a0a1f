// A word of Rice with k from 0 to 31: of the word less one a zero for each 2^k, a one, then what is left in k bits.
ghost use Rattle.std.specs.Prelude.{◌≡◌, ◌≤◌, length};
ghost use Rattle.format.specs.Limits.{largest_parameter};
ghost use Rattle.format.specs.Codes.{Word, rice};
ghost use Rattle.pen.specs.Pen.{Room, Drawn};

use bits::small::power;
use pen::Pen;

pub fn count(k: usize, w: u32) -> u64
    requires { Word w × (k ≤ largest_parameter) }
    ensures { (result ≡ length (rice k w)) × (result ≤ 4294967326) }
{
    let zeros = (w - 1) >> k;
    u64::from(zeros) + 1 + k as u64
}

pub fn write(buf: &mut [u8], pen: Pen, k: usize, w: u32) -> Pen
    requires { Word w × Room (rice k w) buf.old pen × (k ≤ largest_parameter) }
    ensures { Drawn (rice k w) buf.old pen buf.new result }
{
    let zeros = ((w - 1) >> k) as usize;
    let one = power(k);
    // the one and what is left are one field of k + 1 bits
    pen.led(buf, zeros, k + 1, one + (w - 1) % one)
}
