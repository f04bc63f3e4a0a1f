// A word of variable-byte: as few groups of 7 binary digits as hold it, the highest first, each after a flag that tells whether another follows.
ghost use Rattle.std.specs.Prelude.{◌≡◌, ◌∷◌, ◌/◌, ◌^◌, ◌≤◌, ◌<◌, length};
ghost use Rattle.layout.specs.Bits.{in_bits};
ghost use Rattle.format.specs.Codes.{Word, digits, another, variable_byte};
ghost use Rattle.pen.specs.Pen.{Room, Drawn};

use bits::length;
use pen::Pen;

// How many groups hold a word.
fn groups(w: u32) -> usize
    requires { Word w }
    ensures { (result ≡ digits 128 5 w) × (result ≤ 5) }
{
    (length::length(w) + 6) / 7
}

pub fn count(w: u32) -> u64
    requires { Word w }
    ensures { (result ≡ length (variable_byte w)) × (result ≤ 40) }
{
    8 * groups(w) as u64
}

// The flag and the group after which so many more come.
fn unit(w: u32, later: usize) -> u32
    requires { later < 5 }
    ensures { (in_bits 8 result ≡ another later ∷ in_bits 7 (w / 128 ^ later)) × (result < 256) }
{
    let group = (w >> (7 * later)) % 128;
    if later == 0 { group } else { 128 + group }
}

pub fn write(buf: &mut [u8], pen: Pen, w: u32) -> Pen
    requires { Word w × Room (variable_byte w) buf.old pen }
    ensures { Drawn (variable_byte w) buf.old pen buf.new result }
{
    let mut next = pen;
    for later in (0..groups(w)).rev() {
        next = next.field(buf, 8, unit(w, later));
    }
    next
}
