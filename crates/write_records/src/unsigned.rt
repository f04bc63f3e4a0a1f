// Plain values and instants.
use crate::halves::Halved;
use headings::Heading;
use headings::bodies::words_of;
use pen::Pen;

impl Halved for u32 {
    fn count_body(h: Heading, values: &[u32]) -> u64 {
        let kind = h.kind;
        match words_of(h.code) {
            Some(words) => write_lists::count(words, kind, values),
            None => write_interpolative::count(values),
        }
    }

    fn write_body(buf: &mut [u8], pen: Pen, h: Heading, values: &[u32]) -> Pen {
        let kind = h.kind;
        match words_of(h.code) {
            Some(words) => write_lists::write(buf, pen, words, kind, values),
            None => write_interpolative::write(buf, pen, values),
        }
    }
}
