// A word of whichever code of words a list has, read at a cursor, or told by one look at its bits.
#![tactic(auto)]

ghost use Rattle.std.specs.Prelude.{◌*◌, ◌≤◌, ◌<◌, length};
ghost use Rattle.format.specs.Limits.{longest_buffer};
ghost use Rattle.format.specs.Codes.{Word};
ghost use Rattle.bits.specs.Cursor.{Within};
ghost use Rattle.glimpse_words.specs.Glimpsed.{GlimpsedAt, Settled};
ghost use Rattle.read_words.specs.Told.{ToldWord};
ghost use Rattle.headings.specs.Bodies.{image_by};

use bits::Cursor;
use glimpse_words::Glimpse;
use headings::bodies::Words;
use read_words::{NoWord, delta, gamma, rice, variable_byte};

// The word, whatever its bits are.
pub fn word(c: Cursor, s: &[u8], code: Words) -> Result<(u32, Cursor), NoWord>
    requires { Within c (length s.now) }
    ensures { ToldWord Word (image_by code) s.now c result }
{
    match code {
        Words::Gamma => gamma::read(c, s),
        Words::Delta => delta::read(c, s),
        Words::Rice(k) => rice::read(c, s, k.get()),
        Words::VariableByte => variable_byte::read(c, s),
    }
}

// The same by one look at the bits from `at` on, which settles most words, and with no cursor to hand back.
#[inline(always)]
fn look(s: &[u8], at: usize, code: Words) -> Option<Glimpse>
    requires { (8 ≤ length s.now) × (at < 8 * length s.now) × (length s.now ≤ longest_buffer) }
    ensures { GlimpsedAt (image_by code) s.now at result }
{
    let n = bits::number::look(s, at);
    match code {
        Words::Gamma => glimpse_words::gamma(n),
        Words::Delta => glimpse_words::delta(n),
        Words::Rice(k) => glimpse_words::rice(n, k.get()),
        Words::VariableByte => glimpse_words::variable_byte(n),
    }
}

// What a look tells of the word at the cursor, if that ends before the stop.
#[inline(always)]
#[tactic(auto, using(glimpse_words::specs::Glimpsed::unsettled))]
pub fn glimpse(c: Cursor, s: &[u8], code: Words) -> Option<Glimpse>
    requires { Within c (length s.now) }
    ensures { Settled (image_by code) s.now c result }
{
    if c.left() == 0 {
        return None;
    }
    if s.len() < 8 {
        return None;
    }
    let seen = look(s, c.at().bit(), code)?;
    if c.left() < seen.bits {
        return None;
    }
    Some(seen)
}
