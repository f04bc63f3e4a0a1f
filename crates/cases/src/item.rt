// The items of a part of a line, with spaces between: numbers, and earlier items again.
ghost use Rattle.std.specs.Prelude.{◌≤◌, ◌<◌, length, IfSome};

// In which base the digits of a part stand.
#[derive(Clone, Copy)]
pub(crate) enum Base {
    Ten,
    Sixteen,
}

impl Base {
    fn radix(self) -> u32 {
        match self {
            Base::Ten => 10,
            Base::Sixteen => 16,
        }
    }

    // Base 16 is that of bytes.
    fn largest(self) -> u32 {
        match self {
            Base::Ten => u32::MAX,
            Base::Sixteen => 255,
        }
    }
}

// What a number stands for: itself, what is as far below zero, or the item so many places before.
#[derive(Clone, Copy)]
enum Sign {
    Plain,
    BelowZero,
    Before,
}

// How many times an item is given: never while it has no digit, else once, or as often as the number after a star says.
#[derive(Clone, Copy)]
enum Times {
    Never,
    Once,
    Starred(Option<u32>),
}

// An item, and None where a number is too large.
#[derive(Clone, Copy)]
struct Given {
    value: Option<u32>,
    sign: Sign,
    times: Times,
}

// No letter but a small one is a digit, which std's `to_digit` takes otherwise.
fn digit(b: u8) -> Option<u32>
    ensures { IfSome result (λ d. d < 16) }
{
    match b {
        b'0'..=b'9' => Some(u32::from(b - b'0')),
        b'a'..=b'f' => Some(u32::from(b - b'a') + 10),
        _ => None,
    }
}

// A number with one more digit.
fn grown(n: Option<u32>, base: Base, b: u8) -> Option<u32> {
    let d = digit(b)?;
    if base.radix() <= d {
        return None;
    }
    let grown = n?.checked_mul(base.radix())?.checked_add(d)?;
    if base.largest() < grown {
        return None;
    }
    Some(grown)
}

impl Given {
    // A digit is one of the times after a star, and otherwise one of the value, which is given once.
    fn with_digit(self, base: Base, b: u8) -> Given {
        match self.times {
            Times::Starred(n) => Given {
                times: Times::Starred(grown(n, Base::Ten, b)),
                ..self
            },
            Times::Never | Times::Once => Given {
                value: grown(self.value, base, b),
                times: Times::Once,
                ..self
            },
        }
    }

    fn with(self, base: Base, b: u8) -> Given {
        match b {
            b'|' => self,
            b'-' => Given {
                sign: Sign::BelowZero,
                ..self
            },
            b'~' => Given {
                sign: Sign::Before,
                ..self
            },
            b'*' => Given {
                times: Times::Starred(Some(0)),
                ..self
            },
            _ => self.with_digit(base, b),
        }
    }

    fn of(item: &[u8], base: Base) -> Given {
        let mut given = Given {
            value: Some(0),
            sign: Sign::Plain,
            times: Times::Never,
        };
        for &b in item {
            given = given.with(base, b);
        }
        given
    }
}

// There is a 0 before the first item.
fn before(list: &[u32], at: usize, back: usize) -> u32 {
    match at.checked_sub(back) {
        Some(place) => list.get(place).copied().unwrap_or(0),
        None => 0,
    }
}

// A number below zero is kept in two's complement.
fn meant(list: &[u32], at: usize, sign: Sign, value: u32) -> u32 {
    match sign {
        Sign::Plain => value,
        Sign::BelowZero => value.wrapping_neg(),
        Sign::Before => before(list, at, value as usize),
    }
}

impl Times {
    fn count(self) -> Option<usize> {
        match self {
            Times::Never => Some(0),
            Times::Once => Some(1),
            Times::Starred(n) => Some(n? as usize),
        }
    }
}

// How many items there are with another one, if there is room for it.
fn put(list: &mut [u32], count: usize, given: Given) -> Option<usize>
    requires { count ≤ length list.old }
    ensures { IfSome result (λ n. n ≤ length list.new) }
{
    let value = given.value?;
    let times = given.times.count()?;
    if list.len() - count < times {
        return None;
    }
    // by place, since an earlier item that is meant may be one that this loop has put in
    for at in count..count + times {
        list[at] = meant(list, at, given.sign, value);
    }
    Some(count + times)
}

// How many items a part has, which are put into a list that has room for them.
pub(crate) fn items(part: &[u8], base: Base, list: &mut [u32]) -> Option<usize>
    ensures { IfSome result (λ n. n ≤ length list.new) }
{
    let mut count = 0;
    for item in part.split(|&b| b == b' ') {
        count = put(list, count, Given::of(item, base))?;
    }
    Some(count)
}
