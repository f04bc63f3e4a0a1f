// Corrections.
use crate::Body;
use bits::Cursor;
use headings::Heading;
use headings::bodies::words_of;
use reading::{Judged, Refused};

impl Body for i32 {
    fn judge_body(
        c: Cursor,
        s: &[u8],
        h: Heading,
        n: usize,
        place: usize,
        sought: u32,
    ) -> Result<Judged<i32>, Refused> {
        let kind = h.kind;
        match words_of(h.code) {
            Some(words) => read_lists::judge(c, s, words, kind, n, place, sought),
            // never, since code 5 is for instants
            None => Ok(Judged {
                value: 0,
                below: 0,
                after: c,
            }),
        }
    }

    fn keep_body(
        c: Cursor,
        s: &[u8],
        h: Heading,
        n: usize,
        own: &mut [i32],
    ) -> Result<Cursor, Refused> {
        let kind = h.kind;
        match words_of(h.code) {
            Some(words) => read_lists::keep(c, s, words, kind, n, own),
            // never
            None => Ok(c),
        }
    }
}
