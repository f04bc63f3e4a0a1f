// Words that lie whole in the first 57 of the 64 bits of n, found by one look at them. The answer is None where the look does not settle the
// word, because it is long, cut short or bad.
#![tactic(auto)]

ghost use Rattle.std.specs.Prelude.{◌≡◌, Some, ◌≤◌};
ghost use Rattle.format.specs.Limits.{largest_word, largest_parameter};
ghost use Rattle.format.specs.Codes.{gamma, delta, rice, variable_byte};
ghost use Rattle.glimpse_words.specs.Glimpsed.{Glimpsed};

use bits::small::power;

// A word that a look settles, and the number of its bits.
#[derive(Clone, Copy)]
pub struct Glimpse {
    pub word: u32,
    pub bits: usize,
}

// A word of so many bits, as the answer.
fn settled(w: u64, bits: u32) -> Option<Glimpse>
    requires { w ≤ largest_word }
    ensures { result ≡ Some (record { word = w; bits = bits }) }
{
    Some(Glimpse {
        word: w as u32,
        bits: bits as usize,
    })
}

// Up to 28 zeros.
#[tactic(auto, using(crate::specs::Glimpsed::unsettled, crate::specs::Laws::Glimpsed::gamma_within))]
pub fn gamma(n: u64) -> Option<Glimpse>
    ensures { Glimpsed gamma n result }
{
    let long = n < 34359738368;
    if long {
        return None;
    }
    let z = u64::leading_zeros(n);
    let bits = 2 * z + 1;
    settled(n >> (64 - bits), bits)
}

// A quotient and a remainder of 31 bits together.
#[tactic(auto, using(crate::specs::Glimpsed::unsettled, crate::specs::Laws::Glimpsed::zeros_to_63, crate::specs::Laws::Glimpsed::rice_within))]
pub fn rice(n: u64, k: usize) -> Option<Glimpse>
    requires { k ≤ largest_parameter }
    ensures { Glimpsed (rice k) n result }
{
    if n == 0 {
        return None;
    }
    let z = u64::leading_zeros(n);
    let bits = z + 1 + k as u32;
    if 32 < bits {
        return None;
    }
    let one = power(k) as u64;
    settled((z as u64) * one + ((n >> (64 - bits)) - one) + 1, bits)
}

// Up to four groups. The number of bits is known from branches alone, so the processor need not wait for it.
#[tactic(auto, using(crate::specs::Glimpsed::unsettled))]
pub fn variable_byte(n: u64) -> Option<Glimpse>
    ensures { Glimpsed variable_byte n result }
{
    let first = n >> 56;
    if first == 0 {
        return None;
    }
    let alone = first < 128;
    if alone {
        return settled(first, 8);
    }
    if first == 128 {
        return None;
    }
    let second = (n >> 48) % 256;
    if second < 128 {
        return settled((first - 128) * 128 + second, 16);
    }
    let high = (first - 128) * 128 + (second - 128);
    let third = (n >> 40) % 256;
    if third < 128 {
        return settled(high * 128 + third, 24);
    }
    let fourth = (n >> 32) % 256;
    if fourth < 128 {
        return settled((high * 128 + (third - 128)) * 128 + fourth, 32);
    }
    None
}

// Every word: its length has a head of zeros, a one and as many digits; its own digits are moved to the top, where they begin with a one.
#[tactic(auto, using(crate::specs::Glimpsed::unsettled, crate::specs::Laws::Glimpsed::length_within, crate::specs::Laws::Glimpsed::delta_within))]
pub fn delta(n: u64) -> Option<Glimpse>
    ensures { Glimpsed delta n result }
{
    if n < 288230376151711744 {
        return None;
    }
    let head = 2 * u64::leading_zeros(n) + 1;
    let size = (n >> (64 - head)) as u32;
    if 32 < size {
        return None;
    }
    let digits = n << head;
    if digits < 9223372036854775808 {
        return None;
    }
    settled(digits >> (64 - size), head + size)
}
