// Delta: gamma of the length of B(w), then the whole of B(w).
ghost use Rattle.std.specs.Prelude.{◌-◌, length};
ghost use Rattle.format.specs.Codes.{Word, delta};
ghost use Rattle.bits.specs.Cursor.{Within};
ghost use Rattle.read_words.specs.Told.{ToldWord};

use crate::parts::between;
use crate::{NoWord, gamma};
use bits::Cursor;
use bits::small::power;

pub fn read(c: Cursor, s: &[u8]) -> Result<(u32, Cursor), NoWord>
    requires { Within c (length s.now) }
    ensures { ToldWord Word delta s.now c result }
{
    let (n, d) = gamma::read_upto(c, s, 5, 32)?;
    let size = n as usize;
    let first = power(size - 1) as u64;
    // the last part is the word; made anew, since an answer handed on as it is told would be copied a byte at a time
    let (w, e) = between(d, s, size, first, 2 * first - 1)?;
    Ok((w, e))
}
