// One value of a list, formed of its word after the value before; or why it is none.
#![tactic(auto)]

ghost use Rattle.std.specs.Prelude.{◌≡◌, length};
ghost use Rattle.format.specs.Codes.{Word};
ghost use Rattle.format.specs.Kinds.{family_of, natural};
ghost use Rattle.bits.specs.Cursor.{Within};
ghost use Rattle.headings.specs.Headings.{kind_of};
ghost use Rattle.headings.specs.Bodies.{image_by};
ghost use Rattle.read_values.specs.Told.{ToldAnyWord, Formed, ToldValue};

use bits::Cursor;
use headings::Kind;
use headings::bodies::Words;
use lists::Item;
use reading::{Refusal, Refused};

pub mod signed;
pub mod unsigned;

// The values that are formed of words when a list is read.
pub trait FromWord: Item {
    // The value that a word stands for after the one before, unless no value of the kind has this word.
    fn formed(kind: Kind, before: Self, word: u32) -> Option<Self>
        requires { (family_of (kind_of kind) ≡ Self.of_family) × Word word }
        ensures { Formed Self.number (kind_of kind) (Self.number before) word result };

    // A value that is not below zero, as the number that it is.
    fn natural(self) -> u32
        ensures { result ≡ natural (Self.number self) };
}

// A word that one look does not settle. It stays out of the loop that goes through a list, which seldom needs it.
#[inline(never)]
fn careful(c: Cursor, s: &[u8], code: Words) -> Result<(u32, Cursor), Refused>
    requires { Within c (length s.now) }
    ensures { ToldAnyWord (image_by code) s.now c result }
{
    match read_any_word::word(c, s, code) {
        Ok((w, d)) => Ok((w, d)),
        Err(none) => Err(Refused::word(none, c.at())),
    }
}

// A word, by one look where that settles it. It is taken into the loop, since an answer handed back from a call goes by way of memory.
#[inline(always)]
fn word(c: Cursor, s: &[u8], code: Words) -> Result<(u32, Cursor), Refused>
    requires { Within c (length s.now) }
    ensures { ToldAnyWord (image_by code) s.now c result }
{
    // a copy for the call, as `Words` says
    let by = code;
    match read_any_word::glimpse(c, s, by) {
        Some(seen) => Ok((seen.word, c.on(seen.bits))),
        None => careful(c, s, code),
    }
}

// 10 is told at the word.
pub fn next<T: FromWord>(
    c: Cursor,
    s: &[u8],
    code: Words,
    kind: Kind,
    before: T,
) -> Result<(T, Cursor), Refused>
    requires { Within c (length s.now) × (family_of (kind_of kind) ≡ T.of_family) }
    ensures { ToldValue T.number (image_by code) (kind_of kind) (T.number before) s.now c result }
{
    let (w, d) = word(c, s, code)?;
    match T::formed(kind, before, w) {
        Some(v) => Ok((v, d)),
        None => Err(Refused {
            why: Refusal::OutOfRange,
            at: c.at(),
        }),
    }
}
