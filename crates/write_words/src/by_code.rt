// A word of whichever code of words a list has.
ghost use Rattle.std.specs.Prelude.{◌≡◌, ◌≤◌, length};
ghost use Rattle.format.specs.Codes.{Word};
ghost use Rattle.pen.specs.Pen.{Room, Drawn};
ghost use Rattle.headings.specs.Bodies.{image_by};

use crate::{delta, gamma, rice, variable_byte};
use headings::bodies::Words;
use pen::Pen;

pub fn count(code: Words, w: u32) -> u64
    requires { Word w }
    ensures { (result ≡ length (image_by code w)) × (result ≤ 4294967326) }
{
    match code {
        Words::Gamma => gamma::count(w),
        Words::Delta => delta::count(w),
        Words::Rice(k) => rice::count(k.get(), w),
        Words::VariableByte => variable_byte::count(w),
    }
}

pub fn write(buf: &mut [u8], pen: Pen, code: Words, w: u32) -> Pen
    requires { Word w × Room (image_by code w) buf.old pen }
    ensures { Drawn (image_by code w) buf.old pen buf.new result }
{
    match code {
        Words::Gamma => gamma::write(buf, pen, w),
        Words::Delta => delta::write(buf, pen, w),
        Words::Rice(k) => rice::write(buf, pen, k.get(), w),
        Words::VariableByte => variable_byte::write(buf, pen, w),
    }
}
