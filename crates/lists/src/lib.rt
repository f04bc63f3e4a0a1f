// The three kinds of list, as a caller gives them: whether a list is one of its kind, and the word that stands for each value.
#![tactic(auto)]

ghost use Rattle.std.specs.Prelude.{◌≡◌, map, ℤ, pos};
ghost use Rattle.format.specs.Codes.{Word};
ghost use Rattle.format.specs.Kinds.{family_of, InRange, NotBelow, Fits, word_of};
ghost use Rattle.format.specs.Kinds as Kinds;
ghost use Rattle.headings.specs.Headings.{kind_of, family_meant};
ghost use Rattle.lists.specs.Tests.{Unless};
ghost use Rattle.lists.specs.Judged.{ToldList};

use headings::{Family, Kind};

pub mod signed;
pub mod unsigned;

// The machine's numbers that lists are made of: u32 for plain values and instants, i32 for corrections.
pub trait Item: Copy {
    // The number that a value is, and the family whose lists have such values.
    ghost number: { Self → ℤ };

    ghost of_family: { Kinds.Family };

    fn family() -> Family
        ensures { family_meant result ≡ of_family };

    // The first value has 0 before it.
    fn zero() -> Self
        ensures { number result ≡ pos 0 };

    // Whether a value is outside its kind's range.
    fn outside(self, kind: Kind) -> bool
        requires { family_of (kind_of kind) ≡ of_family }
        ensures { Unless (InRange (kind_of kind) (number self)) result };

    // Whether a value is one of a kind that never falls, and below the one before.
    fn falls(self, kind: Kind, before: Self) -> bool
        requires { family_of (kind_of kind) ≡ of_family }
        ensures { Unless (NotBelow (kind_of kind) (number before) (number self)) result };

    // The word that stands for a value after the one before.
    fn word(self, kind: Kind, before: Self) -> u32
        requires { (family_of (kind_of kind) ≡ of_family) × Fits (kind_of kind) (number before) (number self) }
        ensures { (result ≡ word_of (kind_of kind) (number before) (number self)) × Word result };

    // Two values that are one number are equal.
    ghost number_one: { (x y : Self) → number x ≡ number y → x ≡ y };
}

// Why a list is none of its kind: the place, from 0, of the first value that is outside the range or below the one before.
#[derive(Clone, Copy)]
pub enum Unfit {
    Range(usize),
    Falls(usize),
}

pub fn judge<T: Item>(kind: Kind, values: &[T]) -> Result<(), Unfit>
    requires { family_of (kind_of kind) ≡ T.of_family }
    ensures { ToldList (kind_of kind) (map T.number values.now) result }
{
    let mut before = T::zero();
    for (i, &v) in values.iter().enumerate() {
        if v.outside(kind) {
            return Err(Unfit::Range(i));
        }
        if v.falls(kind, before) {
            return Err(Unfit::Falls(i));
        }
        before = v;
    }
    Ok(())
}
