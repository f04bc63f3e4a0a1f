// Bits written in a buffer, a byte's part at a time; no other bit is touched.
ghost use Rattle.std.specs.Prelude.{◌≡◌, ◌+◌, ◌-◌, ◌*◌, ◌/◌, ◌%◌, ◌^◌, ◌≤◌, ◌<◌, length};
ghost use Rattle.layout.specs.Bits.{in_bits, bits_of, put};
ghost use Rattle.format.specs.Limits.{longest_buffer};
ghost use Rattle.pen.specs.Laws.Bytes.{patched};

use bits::number::part;
use bits::small::power;

// A byte in which the w bits above the lowest k are v.
fn patch(b: u8, w: usize, k: usize, v: u8) -> u8
    requires { (w + k ≤ 8) × (v < 2 ^ w) }
    ensures { result ≡ patched b w k v }
{
    let b = u32::from(b);
    let v = u32::from(v);
    let low = power(k);
    let high = power(w + k);
    (b / high * high + v * low + b % low) as u8
}

// v in w bits, within one byte.
fn within_byte(buf: &mut [u8], at: usize, w: usize, v: u8)
    requires { (at % 8 + w ≤ 8) × (at + w ≤ 8 * length buf.old) × (0 < w) × (v < 2 ^ w) }
    ensures { bits_of buf.new ≡ put (bits_of buf.old) at (in_bits w v) }
{
    let q = at / 8;
    let k = 8 - at % 8 - w;
    buf[q] = patch(buf[q], w, k, v);
}

// The lowest width bits of value.
pub fn field(buf: &mut [u8], at: usize, width: usize, value: u32)
    requires { (at + width ≤ 8 * length buf.old) × (width ≤ 32) × (length buf.old ≤ longest_buffer) }
    ensures { bits_of buf.new ≡ put (bits_of buf.old) at (in_bits width value) }
{
    let mut done = 0;
    // each turn takes what is left of a byte, so no range or iterator counts it
    while done < width {
        let w = (width - done).min(8 - (at + done) % 8);
        let v = part(value, width - done - w, w);
        within_byte(buf, at + done, w, v);
        done += w;
    }
}
