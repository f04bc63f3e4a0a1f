// Corrections.
use crate::{Found, Listed, copied};
use bits::Cursor;
use headings::Heading;
use limits::LONGEST_LIST;
use reading::Refused;

impl Listed for i32 {
    fn listed(
        c: Cursor,
        s: &[u8],
        h: Heading,
        n: usize,
        list: &mut [i32],
    ) -> Result<Found, Refused> {
        if n <= 64 {
            let mut few = [0; 64];
            return copied(c, s, h, n, &mut few, list);
        }
        let mut many = [0; LONGEST_LIST];
        copied(c, s, h, n, &mut many, list)
    }
}
