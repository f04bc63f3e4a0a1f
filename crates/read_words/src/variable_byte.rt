// Variable-byte: 7-bit groups, highest first, as few as hold the word; before each group a 1 if another follows, else 0.
ghost use Rattle.std.specs.Prelude.{◌≡◌, ◌-◌, ◌≤◌, length};
ghost use Rattle.bits.specs.Cursor.{Within};
ghost use Rattle.layout.specs.Bits.{in_bits};
ghost use Rattle.format.specs.Codes.{Word, variable_byte};
ghost use Rattle.read_words.specs.Told.{ToldWord};
ghost use Rattle.read_words.specs.Laws.VariableByte.{FlagAndGroup};

use crate::{NoWord, parts};
use bits::Cursor;

// 1 where x is 0, else 0.
fn none(x: u64) -> u64
    ensures { result ≡ 1 - x }
{
    u64::from(x == 0)
}

// A flag of at most `most` and a group of at least `lo`, as one number.
fn unit(c: Cursor, s: &[u8], most: u64, lo: u64) -> Result<(u32, Cursor), NoWord>
    requires { Within c (length s.now) × (most ≤ 1) × (lo ≤ 1) }
    ensures { ToldWord (FlagAndGroup most lo) (in_bits 8) s.now c result }
{
    let (flag, d) = parts::between(c, s, 1, 0, most)?;
    let (group, e) = parts::between(d, s, 7, lo, 127)?;
    Ok((flag * 128 + group, e))
}

// The groups so far are acc. The first is not 0, and none follows the next where acc * 128 * 128 is above 4294967295: from 262144 on.
pub fn read(c: Cursor, s: &[u8]) -> Result<(u32, Cursor), NoWord>
    requires { Within c (length s.now) }
    ensures { ToldWord Word variable_byte s.now c result }
{
    let mut acc: u64 = 0;
    let mut d = c;
    loop {
        let (v, e) = unit(d, s, none(acc / 262144), none(acc))?;
        acc = acc * 128 + (v % 128) as u64;
        if v / 128 == 0 {
            return Ok((acc as u32, e));
        }
        d = e;
    }
}
