// Corrections.
use crate::halves::Halved;
use headings::Heading;
use headings::bodies::words_of;
use pen::Pen;

impl Halved for i32 {
    fn count_body(h: Heading, values: &[i32]) -> u64 {
        let kind = h.kind;
        match words_of(h.code) {
            Some(words) => write_lists::count(words, kind, values),
            // never, since code 5 is for instants
            None => 0,
        }
    }

    fn write_body(buf: &mut [u8], pen: Pen, h: Heading, values: &[i32]) -> Pen {
        let kind = h.kind;
        match words_of(h.code) {
            Some(words) => write_lists::write(buf, pen, words, kind, values),
            // never
            None => pen,
        }
    }
}
