// The body of a record that is written word by word: its bits counted, and written.
#![tactic(auto)]

ghost use Rattle.std.specs.Prelude.{◌≡◌, map, ◌≤◌, pos, length};
ghost use Rattle.format.specs.Limits.{longest_list};
ghost use Rattle.format.specs.Kinds.{family_of, ListOf};
ghost use Rattle.pen.specs.Pen.{Room, Drawn};
ghost use Rattle.headings.specs.Headings.{kind_of};
ghost use Rattle.headings.specs.Bodies.{image_by};
ghost use Rattle.write_lists.specs.Images.{images};

use headings::Kind;
use headings::bodies::Words;
use lists::Item;
use pen::Pen;
use write_words::by_code;

pub fn count<T: Item>(code: Words, kind: Kind, values: &[T]) -> u64
    requires family { family_of (kind_of kind) ≡ T.of_family }
    requires list { ListOf (kind_of kind) (pos 0) (map T.number values.now) × (length values.now ≤ longest_list) }
    ensures { (result ≡ length (images (image_by code) (kind_of kind) (map T.number values.now))) × (result ≤ 17592186167296) }
{
    let mut total = 0;
    let mut before = T::zero();
    for &v in values {
        // a copy for the call, as `Words` says
        let by = code;
        total += by_code::count(by, v.word(kind, before));
        before = v;
    }
    total
}

pub fn write<T: Item>(buf: &mut [u8], pen: Pen, code: Words, kind: Kind, values: &[T]) -> Pen
    requires family { family_of (kind_of kind) ≡ T.of_family }
    requires list { ListOf (kind_of kind) (pos 0) (map T.number values.now) }
    requires room { Room (images (image_by code) (kind_of kind) (map T.number values.now)) buf.old pen }
    ensures { Drawn (images (image_by code) (kind_of kind) (map T.number values.now)) buf.old pen buf.new result }
{
    let n = values.len();
    let mut next = pen;
    let mut before = T::zero();
    // by place, so that an edit has an end to change
    for i in 0..n {
        // a copy for the call, as `Words` says
        let by = code;
        let value = values[i];
        next = by_code::write(buf, next, by, value.word(kind, before));
        before = value;
    }
    next
}
