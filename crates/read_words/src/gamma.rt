// Gamma: as many zeros as B(w) has bits after its first, then B(w).
ghost use Rattle.std.specs.Prelude.{◌≡◌, ◌-◌, ◌≤◌, ◌<◌, min, length};
ghost use Rattle.format.specs.Codes.{Word, gamma};
ghost use Rattle.format.specs.Restated.{Held};
ghost use Rattle.bits.specs.Cursor.{Within};
ghost use Rattle.read_words.specs.Told.{ToldWord, Upward};

use crate::NoWord;
use crate::parts::{between, zeros};
use bits::Cursor;
use bits::small::power;
use limits::LARGEST_WORD;

// The largest number in the bits after a word's first one, which is worth p.
fn most_after(p: u32, top: u32) -> u64
    requires { (0 < p) × (p ≤ top) }
    ensures { (result ≡ min (p - 1) (top - p)) × (result < p) }
{
    u64::from((p - 1).min(top - p))
}

// A word from 1 to top, where top has most + 1 binary digits.
pub fn read_upto(c: Cursor, s: &[u8], most: usize, top: u32) -> Result<(u32, Cursor), NoWord>
    requires { Within c (length s.now) × (most ≤ 31) × Held 2 top most }
    ensures { ToldWord (Upward top) gamma s.now c result }
{
    let (z, d) = zeros(c, s, most)?;
    let m = z as usize;
    let p = power(m);
    let (rest, e) = between(d, s, m, 0, most_after(p, top))?;
    Ok((p + rest, e))
}

pub fn read(c: Cursor, s: &[u8]) -> Result<(u32, Cursor), NoWord>
    requires { Within c (length s.now) }
    ensures { ToldWord Word gamma s.now c result }
{
    read_upto(c, s, 31, LARGEST_WORD)
}
