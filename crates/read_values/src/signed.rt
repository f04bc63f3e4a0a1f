// A correction.
ghost use Rattle.std.specs.Prelude.{◌≡◌, ◌≤◌, pos};
ghost use Rattle.format.specs.Kinds.{Corrections, InRange, word_of};

use crate::FromWord;
use headings::Kind;

// The correction that a word stands for: the half, negated where the word is odd.
fn halved(w: u32) -> i32
    requires { 2 ≤ w }
    ensures { InRange Corrections result × (word_of Corrections (pos 0) result ≡ w) }
{
    let half = (w / 2) as i32;
    if w % 2 == 0 { half } else { -half }
}

impl FromWord for i32 {
    // The word 1 stands for none. The value before does not matter.
    fn formed(_kind: Kind, _before: i32, word: u32) -> Option<i32> {
        let w = word;
        let is_none = w == 1;
        if is_none {
            return None;
        }
        Some(halved(w))
    }

    fn natural(self) -> u32 {
        self.max(0) as u32
    }
}
