// The search by remainders: the least place whose remainder lies in a window.

#![tactic(auto)]

ghost use Rattle.std.specs.Prelude.{◌≡◌, ◌≤◌, ◌<◌};
ghost use Rattle.wide.specs.Value.{half_word};
ghost use Rattle.search.specs.Search.{search_window, shift, search_from};
ghost use Rattle.search.specs.Cases.{Ready};
ghost use Rattle.search.specs.Trace.{wound, unwound, WindsBelow, mirror_back, round_back, Below};

// Where a search ends, at the least place wanted, or nowhere where none is; and the rounds that it took.
#[derive(Clone, Copy, Debug, PartialEq, Eq)]
pub struct Found {
    pub place: Option<u64>,
    pub rounds: u64,
}

// An answer with its winding: how often the steps to the place pass the modulus.
#[derive(Clone, Copy)]
struct Trace {
    found: Found,
    winding: u64,
}

// An answer without a round and without a winding.
fn at_once(place: Option<u64>) -> Trace
    ensures { result ≡ unwound place }
{
    Trace {
        found: Found { place, rounds: 0 },
        winding: 0,
    }
}

// The mirrored search's answer, read in the search itself.
fn mirror_back(t: Trace) -> Trace
    requires { WindsBelow t.found.place t.winding }
    ensures { result ≡ mirror_back t }
{
    match t.found.place {
        Some(k) => Trace {
            winding: k - 1 - t.winding,
            ..t
        },
        None => t,
    }
}

// The answer of the search that a round goes on with, read in the search itself.
fn round_back(t: Trace, first: u64, turns: u64) -> Trace
    requires { Below half_word (round_back first turns t).found }
    ensures { result ≡ round_back first turns t }
{
    let rounds = t.found.rounds + 1;
    match t.found.place {
        Some(j) => Trace {
            found: Found {
                place: Some(first + (j * turns + t.winding)),
                rounds,
            },
            winding: j,
        },
        None => Trace {
            found: Found {
                place: None,
                rounds,
            },
            winding: 0,
        },
    }
}

// The search with its winding.
fn first_place(m: u64, step: u64, l: u64, r: u64) -> Trace
    requires { Ready m step l r × (m ≤ half_word) }
    ensures { result ≡ wound m step (search_window m step l r) }
{
    if l == 0 {
        return at_once(Some(0));
    }
    if step == 0 {
        return at_once(None);
    }
    if m < 2 * step {
        return mirror_back(first_place(m, m - step, m - r, m - l));
    }
    let first = (l + (step - 1)) / step;
    let multiple = first * step;
    if multiple <= r {
        return at_once(Some(first));
    }
    let next = first_place(step, m % step, multiple - r, multiple - l);
    round_back(next, first, m / step)
}

// The least place whose remainder lies in the window l to r.
pub fn find(m: u64, step: u64, l: u64, r: u64) -> Found
    requires { (l ≤ r) × (r < m) × (step < m) × (m ≤ half_word) }
    ensures { result ≡ search_window m step l r }
{
    first_place(m, step, l, r).found
}

// x - base modulo m.
fn shifted(m: u64, base: u64, x: u64) -> u64
    requires { (x < m) × (base < m) × (m ≤ half_word) }
    ensures { result ≡ shift m base x }
{
    if x < base {
        return x + (m - base);
    }
    x - base
}

// The least place whose remainder, counted from a start with the remainder base, lies in the window l to r.
pub fn find_from(m: u64, step: u64, base: u64, l: u64, r: u64) -> Found
    requires { (l ≤ r) × (r < m) × (step < m) × (base < m) × (m ≤ half_word) }
    ensures { result ≡ search_from m step base l r }
{
    let from = shifted(m, base, l);
    let to = shifted(m, base, r);
    if to < from {
        return Found {
            place: Some(0),
            rounds: 0,
        };
    }
    find(m, step, from, to)
}
