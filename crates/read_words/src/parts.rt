// The two parts that words are made of: zeros and a one, and a field that holds the numbers from one to another.
ghost use Rattle.std.specs.Prelude.{◌≡◌, ◌+◌, ◌-◌, ◌^◌, ◌≤◌, ◌<◌, length};
ghost use Rattle.format.specs.Limits.{largest_word};
ghost use Rattle.bits.specs.Cursor.{Within};
ghost use Rattle.layout.specs.Bits.{in_bits};
ghost use Rattle.read_words.specs.Told.{ToldWord, Upto, run, Among, Live};

use crate::NoWord;
use bits::Cursor;

// At most so many zeros, and a one. It stays out of its callers: one look settles most words, and what tells them need not carry this.
#[inline(never)]
pub fn zeros(c: Cursor, s: &[u8], most: usize) -> Result<(u32, Cursor), NoWord>
    requires { Within c (length s.now) × (most < largest_word) }
    ensures { ToldWord (Upto most) run s.now c result }
{
    let have = c.left();
    let z = c.zeros(s);
    if most < z {
        return Err(NoWord::Bad(c.ahead(most)));
    }
    if z == have {
        return Err(NoWord::Cut);
    }
    Ok((z as u32, c.on(z + 1)))
}

// Of w bits that stand for v, and are the first of n: how many there are until no number from lo to hi begins so.
fn live(v: u64, w: usize, n: usize, lo: u64, hi: u64) -> usize
    requires { (w ≤ n) × (n ≤ 32) × (lo ≤ hi) × (hi < 2 ^ n) × (v < 2 ^ w) }
    ensures { Live v w n lo hi result }
{
    for j in 0..w {
        let p = v >> (w - j - 1);
        if p < lo >> (n - j - 1) {
            return j;
        }
        if hi >> (n - j - 1) < p {
            return j;
        }
    }
    w
}

// A field of n bits that holds the numbers from lo to hi.
pub fn between(c: Cursor, s: &[u8], n: usize, lo: u64, hi: u64) -> Result<(u32, Cursor), NoWord>
    requires { Within c (length s.now) × (n ≤ 32) × (lo ≤ hi) × (hi < 2 ^ n) }
    ensures { ToldWord (Among n lo hi) (in_bits n) s.now c result }
{
    let w = n.min(c.left());
    let Some((v, d)) = c.field(s, w) else {
        return Err(NoWord::Cut);
    };
    let rest = n - w;
    let v64 = v as u64;
    if v64 < lo >> rest {
        return Err(NoWord::Bad(c.ahead(live(v64, w, n, lo, hi))));
    }
    if hi >> rest < v64 {
        return Err(NoWord::Bad(c.ahead(live(v64, w, n, lo, hi))));
    }
    if rest == 0 {
        return Ok((v, d));
    }
    Err(NoWord::Cut)
}
