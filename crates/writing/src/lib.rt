// What writing comes to: the bit after what was written, or why nothing was.
#![tactic(auto)]

ghost use Rattle.std.specs.Prelude.{◌≡◌};
ghost use Rattle.writing.specs.Wrote.{unfit_as};

use lists::Unfit;

// Why nothing was written, with what is told: document 01's 1, 2, 3, 4, 5 and 12.
#[derive(Clone, Copy)]
pub enum Unwritten {
    TooMany,
    OutOfRange(usize),
    Falls(usize),
    Unknown,
    Full,
    Outside,
}

impl From<Unfit> for Unwritten {
    ghost from_gives = { λ fault e. e ≡ unfit_as fault };

    fn from(fault: Unfit) -> Unwritten {
        match fault {
            Unfit::Range(place) => Unwritten::OutOfRange(place),
            Unfit::Falls(place) => Unwritten::Falls(place),
        }
    }
}
