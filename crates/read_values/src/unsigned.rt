// A plain value or an instant.
use crate::FromWord;
use headings::Kind;
use headings::bodies::is_instants;

// In 64 bits, as the sum of an instant and a word is.
const LARGEST_INSTANT: u64 = limits::LARGEST_INSTANT as u64;

impl FromWord for u32 {
    fn formed(kind: Kind, before: u32, word: u32) -> Option<u32> {
        let w = word;
        let instants = is_instants(kind);
        if instants {
            let v = before as u64 + w as u64 - 1;
            let beyond = LARGEST_INSTANT < v;
            if beyond {
                return None;
            }
            return Some(v as u32);
        }
        Some(w)
    }

    fn natural(self) -> u32 {
        self
    }
}
