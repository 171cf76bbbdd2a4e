// Kits: up to 96 factors, swept one after another in calls of bounded work, with one cap and one list.

#![tactic(auto)]

ghost use Rattle.std.specs.Prelude.{◌≡◌, not, ◌*◌, ◌^◌, ◌≤◌, ◌<◌, length};
ghost use Rattle.std.specs.List.{list_any};
ghost use Rattle.wide.specs.Value.{word_bits};
ghost use Rattle.marks.specs.Answers.{said, refusal_of, First, NoneHolds};
ghost use Rattle.calls.specs.Call.{new_state, conditions, sweep_call};
ghost use Rattle.calls.specs.Kit.{two_alike, kit_faults, position, has_in};
ghost use Rattle.sweep.specs.Answers.{call_of, terms_by};
ghost use Rattle.kit.specs.Engine.{faulty, alike, factors, kits};
ghost use Rattle.kit.specs.Answers.{kit_of, view_of, new_of, reply_of, verdict_of};
ghost use Rattle.kit.specs.Steps.{resumed_at, counts_of, end_of, Taken};

use factor::{Description, Factor, SoundFactor};
use marks::Refusal;
use sweep::{Halt, Work};

// A kit holds up to so many factors.
const MOST_FACTORS: usize = 96;

// A kit: its factors, filled from the front, and their number. Places past the number hold anything and mean nothing.
#[derive(Clone, Copy)]
pub struct Kit {
    pub factors: [Factor; MOST_FACTORS],
    pub count: usize,
}

// A kit sweep's state: the kit, the place of the factor it stands at, the next significand there, and whether the sweep is finished.
#[derive(Clone, Copy)]
pub struct KitState {
    pub kit: Kit,
    pub place: usize,
    pub next: u64,
    pub finished: bool,
}

// What an accepted call counts: its trials and rounds, and the next first free place.
#[derive(Clone, Copy, Debug, PartialEq, Eq)]
pub struct KitCounts {
    pub trials: u64,
    pub rounds: u64,
    pub place: usize,
}

// What a kit call hands back: the state, and what the call counts, or the refusal 42, 31, 43, 32, 33, 18 or 44.
#[derive(Clone, Copy)]
pub struct KitReply {
    pub state: KitState,
    pub answer: Result<KitCounts, Refusal>,
}

// What is told of a kit by its state and its entries.
#[derive(Clone, Copy, Debug, PartialEq, Eq)]
pub enum Verdict {
    Clean,
    NotClean,
    // the sweep is not finished: nothing is told yet
    Unfinished,
}

// Whether two factors are alike in sign, precision, scale and ends. Their descriptions tell; what differs most often is tested before: the lower ends, and then precisions, scales and upper ends.
fn is_alike(f: Factor, g: Factor) -> bool
    ensures { result ≡ alike f g }
{
    f.lower == g.lower
        && ((f.precision == g.precision)
            & ((f.applied.scale == g.applied.scale) & (f.upper == g.upper))
            && Description::from(f) == Description::from(g))
}

// Whether 31 refuses one of a list of factors.
fn any_faulty(factors: &[Factor]) -> bool
    ensures { result ≡ list_any faulty factors.now }
{
    factors.iter().any(|f| !factor::is_intact(*f))
}

// Whether a factor is like one of a list.
fn is_like_one(f: Factor, others: &[Factor]) -> bool
    ensures { result ≡ list_any (alike f) others.now }
{
    others.iter().any(|g| is_alike(f, *g))
}

// Whether two of a list of factors are alike.
fn two_alike(factors: &[Factor]) -> bool
    ensures { result ≡ two_alike alike factors.now }
{
    let mut rest = factors;
    while let Some((f, others)) = rest.split_first() {
        if is_like_one(*f, others) {
            return true;
        }
        rest = others;
    }
    false
}

// The check of a kit: 42 by its number, then 31, then 43.
pub fn kit_check(k: Kit) -> Result<(), Refusal>
    ensures { First (kit_faults faulty alike (kit_of k)) (refusal_of result) }
{
    if k.count == 0 || MOST_FACTORS < k.count {
        return Err(Refusal::KitOutOfRange);
    }
    let factors = &k.factors[..k.count];
    if any_faulty(factors) {
        return Err(Refusal::FactorDamaged);
    }
    if two_alike(factors) {
        return Err(Refusal::FactorsAlike);
    }
    Ok(())
}

// Refusal 32: no factor is at the place, or the next significand is none of that factor's.
fn place_out(s: KitState) -> bool
    requires { NoneHolds (kits.new_faults (kit_of s.kit)) }
    ensures { result ≡ not (has_in factors (kit_of s.kit) (position s.place s.next)) }
{
    if s.kit.count <= s.place {
        return true;
    }
    let f = SoundFactor {
        factor: s.kit.factors[s.place],
    };
    product::significand_out(f.precision(), s.next)
}

// The first refusal of a state whose condition holds: 42, 31 and 43 of its kit, then 32.
fn state_check(s: KitState) -> Result<(), Refusal>
    ensures { First (kits.faults (view_of s)) (refusal_of result) }
{
    kit_check(s.kit)?;
    if place_out(s) {
        return Err(Refusal::StateOutOfRange);
    }
    Ok(())
}

// The first refusal of a call whose condition holds: the state's, then 33, 18 and 44.
fn refusal_of(s: KitState, cap: u64, size: usize, free: usize) -> Result<(), Refusal>
    ensures { First (conditions kits (view_of s) (terms_by cap size free)) (refusal_of result) }
{
    state_check(s)?;
    if s.finished {
        return Err(Refusal::SweepFinished);
    }
    if cap == 0 {
        return Err(Refusal::NoCap);
    }
    if size.saturating_sub(free) < 2 {
        return Err(Refusal::TooFewPlaces);
    }
    Ok(())
}

// What is done so far, to be gone on with in the next factor: 0 lies before its first significand, from which the loop goes on.
fn resumed(h: Halt) -> Work
    ensures { result ≡ resumed_at h }
{
    Work {
        at: 0,
        trials: h.trials,
        rounds: h.rounds,
        place: h.place,
    }
}

// What is counted of what is done: its place is that of the next free word.
fn counts(w: Work) -> KitCounts
    requires { 2 * w.place < 2 ^ word_bits }
    ensures { result ≡ counts_of w }
{
    KitCounts {
        trials: w.trials,
        rounds: w.rounds,
        place: 2 * w.place,
    }
}

// The steps of an accepted call, factor by factor, which write into the tail that is lent to them, two words an entry, from its first place on. In the first factor they begin at the state's next
// significand, in a later one at its own first.
fn sweep_on(s: KitState, cap: u64, tail: &mut [u32]) -> (KitState, KitCounts)
    requires { Taken s cap (length tail.old) }
    ensures { (end_of result tail.new ≡ sweep_call kits (view_of s) (call_of cap tail.old 0)) × (result.1.place ≤ length tail.old) }
{
    let room = tail.len() / 2;
    let mut work = Work {
        at: s.next,
        trials: 0,
        rounds: 0,
        place: 0,
    };
    for place in s.place..s.kit.count {
        let part = sweep::whole(SoundFactor {
            factor: s.kit.factors[place],
        });
        let begun = Work {
            at: work.at.max(part.first),
            ..work
        };
        let halt = sweep::steps_on(part, cap, room, Some(place as u32), begun, tail);
        work = resumed(halt);
        if let Some(next) = halt.left {
            let state = KitState {
                place,
                next,
                finished: false,
                ..s
            };
            return (state, counts(work));
        }
    }
    let place = s.kit.count - 1;
    let last = sweep::whole(SoundFactor {
        factor: s.kit.factors[place],
    });
    let state = KitState {
        place,
        next: last.last,
        finished: true,
        ..s
    };
    (state, counts(work))
}

// A kit call: the state handed back, and trials, rounds and the next first free place, or a refusal with the state as given. Only the free tail of the list is lent on.
pub fn kit_call(state: KitState, cap: u64, list: &mut [u32], free: usize) -> KitReply
    ensures { reply_of result list.new ≡ sweep_call kits (view_of state) (call_of cap list.old free) }
{
    match refusal_of(state, cap, list.len(), free) {
        Err(refusal) => KitReply {
            state,
            answer: Err(refusal),
        },
        Ok(()) => {
            let (after, counts) = sweep_on(state, cap, &mut list[free..]);
            KitReply {
                state: after,
                answer: Ok(KitCounts {
                    place: free + counts.place,
                    ..counts
                }),
            }
        }
    }
}

// A new kit sweep: 42, 31, 43, or the state at place 0 and that factor's first significand.
pub fn new_state(k: Kit) -> Result<KitState, Refusal>
    ensures { new_of result ≡ new_state kits (kit_of k) }
{
    kit_check(k)?;
    let part = sweep::whole(SoundFactor {
        factor: k.factors[0],
    });
    Ok(KitState {
        kit: k,
        place: 0,
        next: part.first,
        finished: false,
    })
}

// Whether a kit is clean, by its state and how many entries its calls wrote since the new one: told of a finished state only. Or the refusal 42, 31, 43 or 32.
pub fn kit_verdict(state: KitState, entries: u64) -> Result<Verdict, Refusal>
    ensures { said result ≡ verdict_of (view_of state) entries }
{
    state_check(state)?;
    Ok(match (state.finished, entries) {
        (false, _) => Verdict::Unfinished,
        (true, 0) => Verdict::Clean,
        (true, _) => Verdict::NotClean,
    })
}
