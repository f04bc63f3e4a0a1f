// A record: its bits counted, and written where they have room.
#![tactic(auto)]

ghost use Rattle.std.specs.Prelude.{◌≡◌, map, ◌+◌, ◌*◌, ◌≤◌, length};
ghost use Rattle.format.specs.Limits.{longest_buffer};
ghost use Rattle.format.specs.Writing.{Puts};
ghost use Rattle.write_records.specs.Written.{Written};
ghost use Rattle.write_records.specs.Images.{record_image};
ghost use Rattle.write_records.specs.Bodies.{ValidFor};
ghost use Rattle.write_records.specs.Put.{put_outcome};

use crate::halves::Halved;
use bits::BitPos;
use headings::Heading;
use pen::Pen;

pub mod halves;
pub mod heading;
mod signed;
mod unsigned;

pub fn count<T: Halved>(h: Heading, values: &[T]) -> u64
    requires { ValidFor T.of_family h (map T.number values.now) }
    ensures { (result ≡ length (record_image h (map T.number values.now))) × (result ≤ 17592186167370) }
{
    heading::count(h, values.len()) + T::count_body(h, values)
}

pub fn write<T: Halved>(buf: &mut [u8], at: BitPos, h: Heading, values: &[T]) -> BitPos
    requires valid { ValidFor T.of_family h (map T.number values.now) }
    requires room { (at.0 + length (record_image h (map T.number values.now)) ≤ 8 * length buf.old) × (length buf.old ≤ longest_buffer) }
    ensures { Written (record_image h (map T.number values.now)) buf.old at buf.new result }
{
    let pen = Pen::open(buf, at);
    let after_heading = heading::write(buf, pen, h, values.len());
    let after_body = T::write_body(buf, after_heading, h, values);
    after_body.close(buf)
}

// Written where it has room, up to the bit after it.
pub fn put<T: Halved>(buf: &mut [u8], at: BitPos, h: Heading, values: &[T]) -> Option<BitPos>
    requires { ValidFor T.of_family h (map T.number values.now) × (at.0 ≤ 8 * length buf.old) × (length buf.old ≤ longest_buffer) }
    ensures { Puts buf.old at.0 (record_image h (map T.number values.now)) (put_outcome result) buf.new }
{
    let left = 8 * buf.len() - at.bit();
    if (left as u64) < count(h, values) {
        return None;
    }
    Some(write(buf, at, h, values))
}
