// Bits written by a pen: gathered by value, and stored four whole bytes at a time.
ghost use Rattle.std.specs.Prelude.{◌≡◌, ◌++◌, ◌+◌, ◌*◌, ◌^◌, ◌≤◌, ◌<◌, length};
ghost use Rattle.layout.specs.Bits.{in_bits, bits_of, put, zeros};
ghost use Rattle.format.specs.Limits.{longest_buffer};
ghost use Rattle.pen.specs.Pen.{Inside, inked, Opened, Drawn};

use crate::{Pen, write};
use bits::number::number;
use bits::small::power;
use bits::{BitPos, BytePos};

// 32 bits, from a byte on.
fn store(buf: &mut [u8], first: BytePos, bits: u32)
    requires { (first.0 + 4 ≤ length buf.old) × (length buf.old ≤ longest_buffer) }
    ensures { bits_of buf.new ≡ put (bits_of buf.old) (8 * first.0) (in_bits 32 bits) }
{
    let q = first.byte();
    buf[q..q + 4].copy_from_slice(&bits.to_be_bytes());
}

impl Pen {
    // At a bit of a buffer. What stands before it in its four bytes is gathered, to be stored again with what comes after.
    pub fn open(buf: &[u8], at: BitPos) -> Pen
        requires { (at.0 ≤ 8 * length buf.now) × (length buf.now ≤ longest_buffer) }
        ensures { Opened buf.now at result }
    {
        let bit = at.bit();
        Pen {
            at: at,
            gathered: u64::from(number(buf, 32 * (bit / 32), bit % 32)),
        }
    }

    pub fn field(self, buf: &mut [u8], width: usize, value: u32) -> Pen
        requires { Inside self (length buf.old) × (self.at.0 + width ≤ 8 * length buf.old) × (width ≤ 32) × (value < 2 ^ width) }
        ensures { Drawn (in_bits width value) buf.old self buf.new result }
    {
        let here = self.at;
        let next = here.after(width);
        let at = here.bit();
        let count = at % 32 + width;
        let all = (self.gathered << width) + u64::from(value);
        let few = count < 32;
        if few {
            return Pen {
                at: next,
                gathered: all,
            };
        }
        let rest = count - 32;
        store(buf, BytePos::new(at / 32 * 4), (all >> rest) as u32);
        Pen {
            at: next,
            gathered: all % u64::from(power(rest)),
        }
    }

    // So many zeros and then a field. Zeros go alone while both together are too long for a field; the last ones go with it.
    pub fn led(self, buf: &mut [u8], count: usize, width: usize, value: u32) -> Pen
        requires { Inside self (length buf.old) × (self.at.0 + (count + width) ≤ 8 * length buf.old) × (width ≤ 32) × (value < 2 ^ width) }
        ensures { Drawn (zeros count ++ in_bits width value) buf.old self buf.new result }
    {
        let mut pen = self;
        let mut left = count;
        // zeros go 32 at a time, and the last ones with the field, so no range counts the turns
        while 32 < left + width {
            let w = left.min(32);
            pen = pen.field(buf, w, 0);
            left -= w;
        }
        pen.field(buf, left + width, value)
    }

    // Stores what is gathered, and tells the bit after it.
    pub fn close(self, buf: &mut [u8]) -> BitPos
        requires { Inside self (length buf.old) }
        ensures { (bits_of buf.new ≡ inked buf.old self) × (result.0 ≡ self.at.0) }
    {
        let here = self.at;
        let at = here.bit();
        write::field(buf, 32 * (at / 32), at % 32, self.gathered as u32);
        here
    }
}
