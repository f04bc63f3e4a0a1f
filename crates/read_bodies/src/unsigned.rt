// Plain values and instants.
use crate::Body;
use bits::Cursor;
use headings::Heading;
use headings::bodies::words_of;
use reading::{Judged, Refused};

impl Body for u32 {
    fn judge_body(
        c: Cursor,
        s: &[u8],
        h: Heading,
        n: usize,
        place: usize,
        sought: u32,
    ) -> Result<Judged<u32>, Refused> {
        let kind = h.kind;
        match words_of(h.code) {
            Some(words) => read_lists::judge(c, s, words, kind, n, place, sought),
            None => judge_interpolative::judge(c, s, n, place, sought),
        }
    }

    fn keep_body(
        c: Cursor,
        s: &[u8],
        h: Heading,
        n: usize,
        own: &mut [u32],
    ) -> Result<Cursor, Refused> {
        let kind = h.kind;
        match words_of(h.code) {
            Some(words) => read_lists::keep(c, s, words, kind, n, own),
            None => keep_interpolative::keep(c, s, n, own),
        }
    }
}
