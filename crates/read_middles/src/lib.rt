// A middle element of code 5, read at a bit; and what one number as the answer says beyond the stop.
#![tactic(auto)]

ghost use Rattle.std.specs.Prelude.{◌≡◌, ◌+◌, ◌-◌, ◌*◌, ◌/◌, ◌%◌, ◌^◌, ◌≤◌, ◌<◌, length};
ghost use Rattle.format.specs.Limits.{longest_buffer, longest_list, largest_word};
ghost use Rattle.reading.specs.Refusals.{refusal_number};
ghost use Rattle.read_middles.specs.Parts.{Halted, ToldMiddle};

use bits::{BitPos, length, number};
use reading::{Refusal, Refused};

// A middle element, and the bit after its offset; or beyond the stop a refusal: its number times 2^32, and its bit. A Result in its place
// was measured: reading took up to 1.6 times as long, and the check came to 2.52 times the plain one's, past the bar of 2.5.
#[derive(Clone, Copy)]
pub struct Middle {
    pub element: usize,
    pub next: usize,
}

// The middle of n elements between low and hi.
pub fn read_middle(s: &[u8], at: usize, stop: usize, n: usize, low: usize, hi: usize) -> Middle
    requires place { (at ≤ stop) × (stop ≤ 8 * length s.now) × (length s.now ≤ longest_buffer) }
    requires room { (1 ≤ n) × (low + n ≤ hi + 1) × (hi < low + n + largest_word) × (n ≤ longest_list) × (hi ≤ 2 ^ 33) }
    ensures told_middle { ToldMiddle n low hi result.element s.now at stop result.next }
    ensures bounds { (low + (n - 1) / 2 ≤ result.element) × (result.element + n / 2 ≤ hi) }
    ensures refused { stop < result.next → result.element ≡ low + (n - 1) / 2 }
{
    let possible = hi + 2 - (low + n);
    let first = low + (n - 1) / 2;
    let own = length::length((possible - 1) as u32);
    let too_few = stop - at < own;
    if too_few {
        let cut = 6 * 4294967296 + at;
        return Middle {
            element: first,
            next: cut,
        };
    }
    let offset = number::number(s, at, own) as usize;
    let too_large = possible <= offset;
    if too_large {
        let bad = 9 * 4294967296 + at;
        return Middle {
            element: first,
            next: bad,
        };
    }
    let element = first + offset;
    let next = at + own;
    Middle {
        element: element,
        next: next,
    }
}

// What a number beyond the stop refuses.
pub fn refused(next: usize) -> Refused
    ensures why { Halted next → refusal_number result.why ≡ next / 4294967296 }
    ensures at { result.at.0 ≡ next % 4294967296 }
{
    let cut = next / 4294967296 == 6;
    let why = if cut {
        Refusal::CutShort
    } else {
        Refusal::BadWord
    };
    Refused {
        why,
        at: BitPos::new(next % 4294967296),
    }
}
