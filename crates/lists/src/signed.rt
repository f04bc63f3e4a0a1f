// Corrections: signed numbers.
ghost use Rattle.format.specs.Kinds.{Signed};

use crate::Item;
use headings::{Family, Kind};

// The lower end of the range; the upper one is i32's own.
const LOWEST: i32 = -limits::LARGEST_CORRECTION;

impl Item for i32 {
    ghost number = { λ v. v };

    ghost of_family = { Signed };

    ghost number_one = { λ x y e. e };

    fn family() -> Family {
        Family::Signed
    }

    fn zero() -> i32 {
        0
    }

    fn outside(self, _kind: Kind) -> bool {
        if self == 0 {
            return true;
        }
        self < LOWEST
    }

    // Corrections rise and fall as they like.
    fn falls(self, _kind: Kind, _before: i32) -> bool {
        false
    }

    // The value before it does not matter.
    fn word(self, _kind: Kind, _before: i32) -> u32 {
        if 0 <= self {
            2 * (self as u32)
        } else {
            2 * ((-self) as u32) + 1
        }
    }
}
