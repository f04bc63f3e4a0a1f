// What stands before a record's body: code, kind, Rice's k, and the count.
ghost use Rattle.std.specs.Prelude.{◌≡◌, ◌+◌, ◌^◌, ◌≤◌, ◌<◌, length};
ghost use Rattle.layout.specs.Bits.{in_bits};
ghost use Rattle.format.specs.Limits.{longest_list, largest_parameter};
ghost use Rattle.headings.specs.Headings.{carried, carried_width};
ghost use Rattle.pen.specs.Pen.{Room, Drawn};
ghost use Rattle.write_records.specs.Images.{front, heading_image};

use bits::small::power;
use headings::{Code, Heading};
use pen::Pen;
use write_words::gamma;

// Code, kind and parameter as one number.
fn front(h: Heading) -> u32
    requires { carried h.code ≤ largest_parameter }
    ensures { (in_bits (6 + carried_width h.code) result ≡ front h) × (result < 2 ^ (6 + carried_width h.code)) }
{
    let code = h.code;
    let kind = h.kind;
    let both = headings::code_number(code) * 4 + u32::from(kind);
    both * power(headings::parameter_width(code)) + headings::parameter(code)
}

pub fn count(h: Heading, n: usize) -> u64
    requires { (carried h.code ≤ largest_parameter) × (n ≤ longest_list) }
    ensures { (result ≡ length (heading_image h n)) × (result ≤ 74) }
{
    let code = h.code;
    6 + headings::parameter_width(code) as u64 + gamma::count(n as u32 + 1)
}

pub fn write(buf: &mut [u8], pen: Pen, h: Heading, n: usize) -> Pen
    requires code_bound { (carried h.code ≤ largest_parameter) × (n ≤ longest_list) }
    requires room { Room (heading_image h n) buf.old pen }
    ensures { Drawn (heading_image h n) buf.old pen buf.new result }
{
    let code = h.code;
    let width = 6 + headings::parameter_width(code);
    let after_front = pen.field(buf, width, front(h));
    gamma::write(buf, after_front, n as u32 + 1)
}
