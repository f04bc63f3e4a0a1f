// Rice: the quotient of w - 1 by 2^k in zeros, a one, and the remainder in k bits.
ghost use Rattle.std.specs.Prelude.{◌≡◌, ◌+◌, ◌-◌, ◌*◌, ◌/◌, ◌≤◌, ◌<◌, min, length};
ghost use Rattle.format.specs.Limits.{largest_word, largest_parameter};
ghost use Rattle.format.specs.Codes.{Word, rice};
ghost use Rattle.bits.specs.Cursor.{Within};
ghost use Rattle.read_words.specs.Told.{ToldWord};

use crate::NoWord;
use crate::parts::{between, zeros};
use bits::Cursor;
use bits::small::power;

// w - 1 of the largest word w, which is what Rice writes; in 64 bits too, as its parts are.
const LARGEST: u32 = limits::LARGEST_WORD - 1;

const WIDE: u64 = LARGEST as u64;

// The largest quotient of w - 1 by p.
fn most_zeros(p: u32) -> usize
    requires { 0 < p }
    ensures { (result ≡ (largest_word - 1) / p) × (result ≤ largest_word - 1) }
{
    (LARGEST / p) as usize
}

// The largest remainder after a quotient that is worth base.
fn most_after(p: u32, base: u64) -> u64
    requires { (0 < p) × (base ≤ largest_word - 1) }
    ensures { (result ≡ min (p - 1) (largest_word - 1 - base)) × (result < p) × (result + base ≤ largest_word - 1) }
{
    u64::from(p - 1).min(WIDE - base)
}

pub fn read(c: Cursor, s: &[u8], k: usize) -> Result<(u32, Cursor), NoWord>
    requires { Within c (length s.now) × (k ≤ largest_parameter) }
    ensures { ToldWord Word (rice k) s.now c result }
{
    let p = power(k);
    let (q, d) = zeros(c, s, most_zeros(p))?;
    let base = q as u64 * p as u64;
    let (rest, e) = between(d, s, k, 0, most_after(p, base))?;
    Ok(((base + 1) as u32 + rest, e))
}
