// Sweeps: a range of significands searched for those that fail, in calls of bounded work.

#![tactic(auto)]

ghost use Rattle.std.specs.Prelude.{◌≡◌, ◌+◌, ◌*◌, ◌≤◌, ◌<◌, ◌^◌, length, Ok, None};
ghost use Rattle.std.proofs.lemmas.List.Edits.{sets};
ghost use Rattle.wide.specs.Value.{word_bits, half_word};
ghost use Rattle.factor.specs.Precision.{range_out};
ghost use Rattle.suspects.specs.Next.{Askable};
ghost use Rattle.marks.specs.Answers.{refusal_of, First};
ghost use Rattle.calls.specs.State.{out_of_range};
ghost use Rattle.calls.specs.Call.{new_state, conditions, sweep_call};
ghost use Rattle.calls.specs.Engine;
ghost use Rattle.sweep.specs.Engine.{range, engine};
ghost use Rattle.sweep.specs.Answers.{whole_of, view_of, new_of, call_of, terms_by, result_of, reply_of};
ghost use Rattle.sweep.specs.Steps.{cut_at, sought_before, ahead_in, Searchable, must_stop, begun_at, halted_at, listed_at, tried_at, step_of, result_in, Room, Stepping, Taken, part_list, part_run, part_written, Parted, Partible};

use factor::{Factor, Precision, SoundFactor};
use marks::{Mark, Refusal};
use product::Operands;
use search::Found;
use suspects::{Window, Windows};

// A sweep's state: the factor, the first, last and next significand, and whether the sweep is finished.
#[derive(Clone, Copy)]
pub struct SweepState {
    pub factor: Factor,
    pub first: u64,
    pub last: u64,
    pub next: u64,
    pub finished: bool,
}

// What an accepted call answers: the state handed back, its trials and rounds, and the next first free place.
#[derive(Clone, Copy)]
pub struct Swept {
    pub state: SweepState,
    pub trials: u64,
    pub rounds: u64,
    pub place: usize,
}

// What a refused call answers: the state as given, and the refusal 31, 32, 33, 18 or 19.
#[derive(Clone, Copy)]
pub struct SweepRefusal {
    pub state: SweepState,
    pub refusal: Refusal,
}

// What a call has done so far: where it goes on, its trials and rounds, and the next free place, counted in entries.
#[derive(Clone, Copy)]
pub struct Work {
    pub at: u64,
    pub trials: u64,
    pub rounds: u64,
    pub place: usize,
}

// What a call has done where it halts: its trials and rounds, the next free place, and the suspect that it stops at, or none where none is left.
#[derive(Clone, Copy)]
pub struct Halt {
    pub trials: u64,
    pub rounds: u64,
    pub place: usize,
    pub left: Option<u64>,
}

// What a step comes to.
#[derive(Clone, Copy)]
enum Stepped {
    // a suspect was tried, and the call goes on past it
    Passed(Work),
    // and its word goes into the place before the next free one
    Listed(Work, u64),
    // the call stops at a suspect, or none is left
    Halted(Halt),
}

// A new sweep over a range: 31 by the factor, then 17 by the range.
pub fn new_state(f: Factor, first: u64, last: u64) -> Result<SweepState, Refusal>
    ensures { new_of result ≡ new_state engine (range f first last) }
{
    let sound = SoundFactor::new(f)?;
    if product::range_out(sound.precision(), first, last) {
        return Err(Refusal::SignificandOutOfRange);
    }
    Ok(SweepState {
        factor: f,
        first,
        last,
        next: first,
        finished: false,
    })
}

// Refusal 32, by the factor's precision: the range is one that 17 refuses, or the next significand lies outside it.
fn state_out(p: Precision, s: SweepState) -> bool
    ensures { result ≡ out_of_range (range_out p.bits s.first s.last) (view_of s) }
{
    product::range_out(p, s.first, s.last) || s.next < s.first || s.last < s.next
}

// The first refusal of a call whose condition holds: state before input, the smaller number first.
fn refusal_of(s: SweepState, cap: u64, size: usize, free: usize) -> Result<(), Refusal>
    ensures { First (conditions engine (view_of s) (terms_by cap size free)) (refusal_of result) }
{
    let sound = SoundFactor::new(s.factor)?;
    if state_out(sound.precision(), s) {
        return Err(Refusal::StateOutOfRange);
    }
    if s.finished {
        return Err(Refusal::SweepFinished);
    }
    if cap == 0 {
        return Err(Refusal::NoCap);
    }
    if size <= free {
        return Err(Refusal::NoFreePlace);
    }
    Ok(())
}

// A place at or past the end is none found; its rounds count.
fn cut(found: Found, end: u64) -> Found
    ensures { result ≡ cut_at end found }
{
    Found {
        place: found.place.filter(|x| *x < end),
        ..found
    }
}

// The search in a half, from `at` on, where the half's part of the range ends before `end`: passed over if nothing is left of it.
fn sought_before(w: Window, at: u64, end: u64) -> Found
    requires { Askable w × (end ≤ half_word) }
    ensures { result ≡ sought_before w at end }
{
    if at < end {
        cut(suspects::next(w, at), end)
    } else {
        Found {
            place: None,
            rounds: 0,
        }
    }
}

// The first suspect of the range from `at` on, low before high, with the rounds of the searches that lead to it.
fn ahead(windows: Windows, last: u64, at: u64) -> Found
    requires { Searchable windows × (last < half_word) }
    ensures { result ≡ ahead_in windows last at }
{
    let lower = sought_before(windows.low, at, windows.first_high.min(last + 1));
    match lower.place {
        Some(_) => lower,
        None => {
            let upper = sought_before(windows.high, at.max(windows.first_high), last + 1);
            Found {
                place: upper.place,
                rounds: lower.rounds + upper.rounds,
            }
        }
    }
}

// Before a suspect is tried, a call stops if the cap is reached or no place is free.
fn must_stop(trials: u64, cap: u64, place: usize, size: usize) -> bool
    ensures { result ≡ must_stop trials cap place size }
{
    trials == cap || place == size
}

// The sweep over all significands of a factor, at its first one.
pub fn whole(f: SoundFactor) -> SweepState
    ensures { result ≡ whole_of f.factor }
{
    let p = f.precision();
    SweepState {
        factor: f.factor,
        first: p.least(),
        last: p.most(),
        next: p.least(),
        finished: false,
    }
}

// Nothing is done yet.
pub fn begun(s: SweepState) -> Work
    ensures { result ≡ begun_at s.next }
{
    Work {
        at: s.next,
        trials: 0,
        rounds: 0,
        place: 0,
    }
}

// The call stops at a suspect, or none is left.
fn halted(w: Work, rounds: u64, left: Option<u64>) -> Stepped
    ensures { result ≡ halted_at w rounds left }
{
    Stepped::Halted(Halt {
        trials: w.trials,
        rounds,
        place: w.place,
        left,
    })
}

// A word goes into the next free place.
fn listed(w: Work, word: u64) -> Stepped
    requires { w.place + 1 < 2 ^ word_bits }
    ensures { result ≡ listed_at w word }
{
    Stepped::Listed(
        Work {
            place: w.place + 1,
            ..w
        },
        word,
    )
}

// X was tried: its word is 2X, plus 1 for open.
fn tried(w: Work, rounds: u64, x: u64, mark: Mark) -> Stepped
    requires { Room w x }
    ensures { result ≡ tried_at w rounds x mark }
{
    let next = Work {
        at: x + 1,
        trials: w.trials + 1,
        rounds,
        place: w.place,
    };
    match mark {
        Mark::Right => Stepped::Passed(next),
        Mark::Open => listed(next, 2 * x + 1),
        Mark::Wrong => listed(next, 2 * x),
    }
}

// A step: the next suspect and its trial, or where the call stops, or the end. The size is how many entries there is room for.
fn step(s: SweepState, windows: Windows, cap: u64, size: usize, w: Work) -> Stepped
    requires { Stepping s windows cap size w }
    ensures { result ≡ step_of s cap size w }
{
    let found = ahead(windows, s.last, w.at);
    let rounds = w.rounds + found.rounds;
    match found.place {
        Some(x) if must_stop(w.trials, cap, w.place, size) => halted(w, rounds, Some(x)),
        Some(x) => {
            let suspect = Operands {
                factor: s.factor,
                significand: x,
            };
            tried(w, rounds, x, suspect.trial())
        }
        None => halted(w, rounds, None),
    }
}

// The state that a call hands back: stopped at a suspect, or finished.
fn handed(s: SweepState, left: Option<u64>) -> SweepState
    ensures { view_of result ≡ Engine.handed engine (view_of s) left }
{
    match left {
        Some(x) => SweepState {
            next: x,
            finished: false,
            ..s
        },
        None => SweepState {
            next: s.last,
            finished: true,
            ..s
        },
    }
}

// What an accepted call answers, once it is done.
fn ended(s: SweepState, h: Halt) -> Swept
    ensures { (view_of result.state ≡ Engine.handed engine (view_of s) h.left) × (result_of result ≡ result_in h) }
{
    Swept {
        state: handed(s, h.left),
        trials: h.trials,
        rounds: h.rounds,
        place: h.place,
    }
}

// An entry is written: a word alone, in one place, or, of a kit's factor, behind its place in the kit, in two.
fn put_entry(tail: &mut [u32], place: usize, lead: Option<u32>, word: u32)
    requires { (part_list lead).places * place + (part_list lead).places ≤ length tail.old }
    ensures { tail.new ≡ sets tail.old ((part_list lead).places * place) ((part_list lead).entry word) }
{
    match lead {
        Some(factor) => {
            tail[2 * place] = factor;
            tail[2 * place + 1] = word;
        }
        None => tail[place] = word,
    }
}

// All steps of a call in one factor, from what is done so far: they go on until a suspect must wait or none is left. The entry of a word goes into the next free place of the
// tail that is lent to them, or into the next two. The room is how many entries fit there.
pub fn steps_on(
    s: SweepState,
    cap: u64,
    room: usize,
    lead: Option<u32>,
    done: Work,
    tail: &mut [u32],
) -> Halt
    requires { Partible s cap room lead (length tail.old) done }
    ensures { Parted (part_run s cap room done) done result × (tail.new ≡ part_written (part_list lead) done (part_run s cap room done) tail.old) }
{
    let windows = suspects::windows_of(s.factor);
    let mut w = done;
    loop {
        match step(s, windows, cap, room, w) {
            Stepped::Passed(next) => w = next,
            Stepped::Listed(next, word) => {
                put_entry(tail, w.place, lead, word as u32);
                w = next;
            }
            Stepped::Halted(halt) => return halt,
        }
    }
}

// The steps of an accepted call, which write into the tail that is lent to them, from its first place on.
fn sweep_on(s: SweepState, cap: u64, tail: &mut [u32]) -> Swept
    requires { Taken s cap (length tail.old) }
    ensures { (reply_of (Ok result) tail.new ≡ sweep_call engine (view_of s) (call_of cap tail.old 0)) × (result.place ≤ length tail.old) }
{
    let room = tail.len();
    ended(s, steps_on(s, cap, room, None, begun(s), tail))
}

// A sweep call: the state, trials, rounds and the next first free place, or a refusal with the state as given. Only the free tail of the list is lent on.
pub fn sweep_call(
    state: SweepState,
    cap: u64,
    list: &mut [u32],
    free: usize,
) -> Result<Swept, SweepRefusal>
    ensures { reply_of result list.new ≡ sweep_call engine (view_of state) (call_of cap list.old free) }
{
    refusal_of(state, cap, list.len(), free).map_err(|refusal| SweepRefusal { state, refusal })?;
    let swept = sweep_on(state, cap, &mut list[free..]);
    Ok(Swept {
        place: free + swept.place,
        ..swept
    })
}
