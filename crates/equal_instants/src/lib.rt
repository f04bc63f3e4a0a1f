// What n instants that are all t add up to.
#![tactic(auto)]

ghost use Rattle.std.specs.Prelude.{◌≡◌, ℕ, ◌≤◌, replicate};
ghost use Rattle.equal_instants.specs.Sums.{total, at_place, is_below};

// From the place `start` on: the one at a place, or 0.
pub fn value_at(place: usize, start: usize, n: usize, t: usize) -> usize
    ensures { (result ≡ total (at_place place) start (replicate n t)) × (result ≤ t) }
{
    if place < start {
        return 0;
    }
    if place - start < n {
        return t;
    }
    0
}

// How many of them are below the one sought, whatever their places.
pub fn below(sought: usize, n: usize, t: usize) -> usize
    ensures { ((start : ℕ) → result ≡ total (is_below sought) start (replicate n t)) × (result ≤ n) }
{
    if t < sought {
        return n;
    }
    0
}
