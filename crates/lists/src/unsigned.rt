// Plain lists and instants: numbers that are not signed.
ghost use Rattle.std.specs.Prelude.{pos};
ghost use Rattle.format.specs.Kinds.{Unsigned};
ghost use Rattle.lists.specs.Laws.Numbers.{pos_one};

use crate::Item;
use headings::bodies::is_instants;
use headings::{Family, Kind};
use limits::{LARGEST_INSTANT, LARGEST_WORD};

impl Item for u32 {
    ghost number = { pos };

    ghost of_family = { Unsigned };

    ghost number_one = { pos_one };

    fn family() -> Family {
        Family::Unsigned
    }

    fn zero() -> u32 {
        0
    }

    // No u32 is above the plain one's upper end, which is tested so that it is held to the definition.
    fn outside(self, kind: Kind) -> bool {
        let v = self;
        let instants = is_instants(kind);
        if instants {
            return LARGEST_INSTANT < v;
        }
        let too_small = v < 1;
        if too_small {
            return true;
        }
        LARGEST_WORD < v
    }

    fn falls(self, kind: Kind, before: u32) -> bool {
        let v = self;
        let instants = is_instants(kind);
        if instants { v < before } else { false }
    }

    fn word(self, kind: Kind, before: u32) -> u32 {
        let v = self;
        let instants = is_instants(kind);
        if instants { v - before + 1 } else { v }
    }
}
