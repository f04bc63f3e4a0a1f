// The body of a record, of whichever code: word by word, or by halves.
ghost use Rattle.std.specs.Prelude.{◌≡◌, map, ◌≤◌, length};
ghost use Rattle.pen.specs.Pen.{Room, Drawn};
ghost use Rattle.write_records.specs.Images.{body_image};
ghost use Rattle.write_records.specs.Bodies.{ValidFor};

use headings::Heading;
use lists::Item;
use pen::Pen;

// The values of which bodies are written. The types differ where a body goes by halves: it has instants, and of corrections there is none.
pub trait Halved: Item {
    fn count_body(h: Heading, values: &[Self]) -> u64
        requires { ValidFor Self.of_family h (map Self.number values.now) }
        ensures { (result ≡ length (body_image h (map Self.number values.now))) × (result ≤ 17592186167296) };

    fn write_body(buf: &mut [u8], pen: Pen, h: Heading, values: &[Self]) -> Pen
        requires valid { ValidFor Self.of_family h (map Self.number values.now) }
        requires room { Room (body_image h (map Self.number values.now)) buf.old pen }
        ensures { Drawn (body_image h (map Self.number values.now)) buf.old pen buf.new result };
}
