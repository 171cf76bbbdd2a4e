// The program `plotconst` in steps by value: from what was read so far and the next bytes to the bytes to write.

#![tactic(auto)]

mod held;

ghost use Rattle.std.specs.Prelude.{◌≡◌, true, ◌&&◌, [], ◌+◌, ◌-◌, ◌*◌, ◌≤◌, leb, length, drop, Some};
ghost use Rattle.marks.specs.Answers.{said};
ghost use Rattle.frame.specs.Written.{Written};
ghost use Rattle.stream.specs.Output.{word_lines, judged_line, odds};
ghost use Rattle.stream.specs.Keep.{kept, up_to_feed};
ghost use Rattle.stream.specs.Step.{begun_with, tallied, part_lines, most_written, wants_step, kept_of, read_of, at_line, judged_step, task_step, step_of, end_of};
ghost use Rattle.stream.specs.Work.{all_steps, next_of, work_of};
ghost use Rattle.stream.specs.Good.{Going, Counted, GoodTask, Fit, added_to, Addable};
ghost use Rattle.stream.specs.Moves.{Turned, Moved, WorkedOff};

use factor::{Factor, SoundFactor};
use frame::{LINE_FEED, Report};
pub use held::Line;
use marks::Refusal;
use sweep::{SweepState, Swept};

// A listed word, and each count of a report, has so many digits.
const WORD_DIGITS: usize = 8;

// The program stops after so many lines.
const MOST_LINES: u64 = 65535;

// No step writes more bytes than this: 64 words and a report.
const MOST_WRITTEN: usize = 611;

// A sweep on its way: its state, and how many significands were tried, found wrong and found open.
#[derive(Clone, Copy)]
pub struct Tally {
    pub state: SweepState,
    pub trials: u64,
    pub wrongs: u64,
    pub opens: u64,
}

// What was read so far: the number of the line, what is kept of it, and the sweep of the line before, if that is on its way.
#[derive(Clone, Copy)]
pub struct Progress {
    pub number: u64,
    pub held: Line,
    pub sweeping: Option<Tally>,
}

// What the program does next: it goes on with what it has, it reads, or it stops.
#[derive(Clone, Copy, Debug, PartialEq, Eq)]
pub enum Next {
    Again,
    Read,
    Stop,
}

// What one step comes to, or several: the progress, where the input goes on, and where the output goes on.
#[derive(Clone, Copy)]
pub struct Move {
    pub progress: Progress,
    pub at: usize,
    pub used: usize,
}

// What is done between a read and a write, and what comes after it.
#[derive(Clone, Copy)]
pub struct Worked {
    pub moved: Move,
    pub next: Next,
}

// A sweep after one call, and where the output goes on.
#[derive(Clone, Copy)]
struct Part {
    tally: Tally,
    used: usize,
}

// Where the output goes on after some words, and how many of them are open ones.
#[derive(Clone, Copy)]
struct Printed {
    at: usize,
    opens: u64,
}

// Reads up to the next line feed or to the end of the input: the answer is where the input goes on.
fn keep_line(held: &mut Line, input: &[u8], at: usize) -> usize
    requires { at ≤ length input.now }
    ensures line { kept_of held.new ≡ kept (kept_of held.old) (drop at input.now) }
    ensures rest { (result ≤ length input.now) × (drop result input.now ≡ up_to_feed (drop at input.now)) }
{
    for place in at..input.len() {
        let b = input[place];
        if b == LINE_FEED {
            return place;
        }
        held.keep(b);
    }
    input.len()
}

// What a line asks for: a factor to sweep, or a refusal.
fn judge(line: &[u8]) -> Result<Factor, Refusal>
    ensures { said result ≡ judged_line line.now }
{
    factor::set_up(frame::read_frame(line)?)
}

// Prints words, each on a line of its own, and counts the open ones, which are odd.
fn put_words(words: &[u32], out: &mut [u8], at: usize) -> Printed
    requires { at + 9 * length words.now ≤ length out.old }
    ensures written { Written out.old at (word_lines words.now) out.new result.at }
    ensures opens_value { result.opens ≡ odds words.now }
{
    let mut place = at;
    let mut opens = 0;
    for word in words {
        let word = u64::from(*word);
        place = frame::put_word(out, place, WORD_DIGITS, word);
        opens += word % 2;
    }
    Printed { at: place, opens }
}

// The tally with a call's state and trials, and with its words, of which so many are open ones.
fn added(t: Tally, swept: Swept, opens: u64) -> Tally
    requires { Addable t swept.trials swept.place opens }
    ensures { result ≡ added_to t swept.state swept.trials swept.place opens }
{
    Tally {
        state: swept.state,
        trials: t.trials + swept.trials,
        wrongs: t.wrongs + (swept.place as u64 - opens),
        opens: t.opens + opens,
    }
}

// One call of a sweep: its words go out, and the tally grows. The cap is none that counts, and nothing refuses the call.
fn sweep_part(t: Tally, out: &mut [u8], used: usize) -> Part
    requires { Going t.state × Counted t × (used + 576 ≤ length out.old) }
    ensures { (result.tally ≡ tallied t) × Written out.old used (part_lines t.state) out.new result.used }
{
    let mut list = [0; 64];
    let Ok(swept) = sweep::sweep_call(t.state, u64::MAX, &mut list, 0) else {
        unreachable!()
    };
    let printed = put_words(&list[..swept.place], out, used);
    Part {
        tally: added(t, swept, printed.opens),
        used: printed.at,
    }
}

// The sweep over all significands of a factor, at its beginning.
fn begin(f: SoundFactor) -> Tally
    ensures { result ≡ begun_with f.factor }
{
    Tally {
        state: sweep::whole(f),
        trials: 0,
        wrongs: 0,
        opens: 0,
    }
}

// At the beginning of a line.
fn at_line(number: u64) -> Progress
    requires { number ≤ 65536 }
    ensures { Fit result × (read_of result ≡ at_line number) }
{
    Progress {
        number,
        held: Line::new(),
        sweeping: None,
    }
}

// At the beginning: line 1, nothing kept. What stands in `held` past what is kept is left free, here and in what `work` hands back: nothing reads it.
pub fn new() -> Progress
    ensures { Fit result × (read_of result ≡ at_line 1) }
{
    at_line(1)
}

// A part of a sweep, and its report at the end.
fn sweep_step(number: u64, t: Tally, at: usize, out: &mut [u8], used: usize) -> Move
    requires { GoodTask number (Some t) × (used + most_written ≤ length out.old) }
    ensures { Turned (task_step number [] (Some t) []) at result out.old used out.new }
{
    let part = sweep_part(t, out, used);
    let tally = part.tally;
    if tally.state.finished {
        let report = Report {
            number,
            trials: tally.trials,
            wrongs: tally.wrongs,
            opens: tally.opens,
        };
        let end = frame::put_report(out, part.used, WORD_DIGITS, report);
        return Move {
            progress: at_line(number + 1),
            at,
            used: end,
        };
    }
    Move {
        progress: Progress {
            sweeping: Some(tally),
            ..at_line(number)
        },
        at,
        used: part.used,
    }
}

// A line that is complete: its refusal, or the sweep of its factor begins.
fn line_step(number: u64, line: &[u8], at: usize, out: &mut [u8], used: usize) -> Move
    requires { (number ≤ 65535) × (used + most_written ≤ length out.old) }
    ensures { Turned (judged_step number (judged_line line.now) []) at result out.old used out.new }
{
    match judge(line) {
        Ok(factor) => Move {
            progress: Progress {
                sweeping: Some(begin(SoundFactor { factor })),
                ..at_line(number)
            },
            at,
            used,
        },
        Err(refusal) => {
            let end = frame::put_refusal(out, used, number, refusal.into());
            Move {
                progress: at_line(number + 1),
                at,
                used: end,
            }
        }
    }
}

// One step: from what was read so far, and the input from `at` on, to the bytes that it writes from `used` on.
fn step(mut p: Progress, input: &[u8], at: usize, out: &mut [u8], used: usize) -> Move
    requires { Fit p × (at ≤ length input.now) × (used + most_written ≤ length out.old) }
    ensures { Moved (step_of (read_of p) (drop at input.now)) input.now result out.old used out.new × (result.used ≤ used + most_written) }
{
    if let Some(t) = p.sweeping {
        return sweep_step(p.number, t, at, out, used);
    }
    if MOST_LINES < p.number {
        return Move {
            progress: p,
            at: input.len(),
            used,
        };
    }
    let end = keep_line(&mut p.held, input, at);
    if end == input.len() {
        return Move {
            progress: p,
            at: end,
            used,
        };
    }
    line_step(p.number, p.held.as_slice(), end + 1, out, used)
}

// The end of the input: a last line without its line feed is refused.
#[tactic(auto, unfolding(crate::specs::Step::end_of))]
fn finish(p: &Progress, out: &mut [u8]) -> usize
    requires { Fit p.now × (most_written ≤ length out.old) }
    ensures { Written out.old 0 (end_of (read_of p.now)) out.new result × (result ≤ most_written) }
{
    if p.sweeping.is_some() || p.held.as_slice().is_empty() || MOST_LINES < p.number {
        return 0;
    }
    frame::put_refusal(out, 0, p.number, Refusal::NotAFrame.into())
}

// Whether a step is to be made: input is left, or a sweep is on its way.
fn wants_step(p: &Progress, input: &[u8], at: usize) -> bool
    ensures { result ≡ wants_step p.now.sweeping (drop at input.now) }
{
    at < input.len() || p.sweeping.is_some()
}

// Whether a step is to be made, and an output of this size has room for whatever it may write.
fn may_step(m: Move, input: &[u8], size: usize) -> bool
    requires { m.used ≤ size }
    ensures { result ≡ (wants_step m.progress.sweeping (drop m.at input.now) && leb most_written (size - m.used)) }
{
    wants_step(&m.progress, input, m.at) && MOST_WRITTEN <= size - m.used
}

// Steps, as long as one is to be made and there is room for it.
fn steps(progress: Progress, input: &[u8], at: usize, out: &mut [u8]) -> Move
    requires { Fit progress × (at ≤ length input.now) }
    ensures { Moved (all_steps (length out.old) (read_of progress) (drop at input.now)) input.now result out.old 0 out.new × (result.used ≤ length out.old) }
{
    let mut moved = Move {
        progress,
        at,
        used: 0,
    };
    while may_step(moved, input, out.len()) {
        moved = step(moved.progress, input, moved.at, out, moved.used);
    }
    moved
}

// What the program does after it has written what the steps gave.
fn next_after(p: &Progress, input: &[u8], at: usize) -> Next
    ensures { result ≡ next_of (read_of p.now) (drop at input.now) }
{
    if wants_step(p, input, at) {
        Next::Again
    } else if MOST_LINES < p.number {
        Next::Stop
    } else {
        Next::Read
    }
}

// All that the program does between a read and a write, with the input from `at` on and an output that is free. Where nothing is left to do, the read gave nothing: the input has ended.
pub fn work(p: Progress, input: &[u8], at: usize, out: &mut [u8]) -> Worked
    requires { Fit p × (at ≤ length input.now) × (most_written ≤ length out.old) }
    ensures { WorkedOff (work_of (length out.old) (read_of p) (drop at input.now)) input.now result out.old out.new }
{
    if !wants_step(&p, input, at) {
        let last = finish(&p, out);
        return Worked {
            moved: Move {
                progress: p,
                at,
                used: last,
            },
            next: Next::Stop,
        };
    }
    let moved = steps(p, input, at, out);
    let next = next_after(&moved.progress, input, moved.at);
    Worked { moved, next }
}
