// What reading at a cursor comes to: where a reader reads, why it refuses, and how far it has come.
#![tactic(auto)]

ghost use Rattle.std.specs.Prelude.{◌≡◌};
ghost use Rattle.reading.specs.Refusals.{refusal_number, why_no_word};

use bits::{BitPos, Cursor};
use read_words::NoWord;

pub mod place;

// Why a reader refuses: document 01's answers 5 to 13.
#[derive(Clone, Copy, PartialEq, Eq)]
pub enum Refusal {
    NoRoom,
    CutShort,
    Unknown,
    TooMany,
    BadWord,
    OutOfRange,
    Unclean,
    Outside,
    Beyond,
}

// A refusal, and the bit that is told with it: 0 where document 01 names none.
#[derive(Clone, Copy)]
pub struct Refused {
    pub why: Refusal,
    pub at: BitPos,
}

// A list judged: the value at an asked place, 0 beyond the list; how many are below a sought one; and the cursor after the list.
#[derive(Clone, Copy)]
pub struct Judged<T> {
    pub value: T,
    pub below: usize,
    pub after: Cursor,
}

// The answer's number in document 01.
impl From<Refusal> for u32 {
    ghost from_gives = { λ refusal n. n ≡ refusal_number refusal };

    fn from(refusal: Refusal) -> u32 {
        match refusal {
            Refusal::NoRoom => 5,
            Refusal::CutShort => 6,
            Refusal::Unknown => 7,
            Refusal::TooMany => 8,
            Refusal::BadWord => 9,
            Refusal::OutOfRange => 10,
            Refusal::Unclean => 11,
            Refusal::Outside => 12,
            Refusal::Beyond => 13,
        }
    }
}

impl Refused {
    // Where no word stands. Document 01 tells a bad word at its first bit, and not where it dies.
    pub fn word(word: NoWord, first: BitPos) -> Refused
        ensures { result ≡ record { why = why_no_word word; at = first } }
    {
        let why = match word {
            NoWord::Cut => Refusal::CutShort,
            NoWord::Bad(_) => Refusal::BadWord,
        };
        Refused { why, at: first }
    }

    // A refusal with which document 01 tells 0.
    pub fn told_0(why: Refusal) -> Refused
        ensures { result ≡ record { why = why; at = record { 0 = 0 } } }
    {
        Refused {
            why,
            at: BitPos::new(0),
        }
    }
}
