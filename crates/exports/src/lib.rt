// The engine for programs in other languages: numbers and lists of words in place of structs and enums. include/gusnalip.h declares the functions.

#![tactic(auto)]

ghost use Rattle.std.specs.Prelude.{◌≡◌, ◌+◌, ◌≤◌, length, take, drop, [], ◌∷◌};
ghost use Rattle.std.proofs.lemmas.List.Edits.{sets};
ghost use Rattle.words.specs.Words.{signed, unsigned};
ghost use Rattle.marks.specs.Answers.{First};
ghost use Rattle.product.specs.declared.Device.{Device};
ghost use Rattle.reading.specs.Reading.{outcome_of as readingSays};
ghost use Rattle.sweep.specs.Answers.{view_of};
ghost use Rattle.kit.specs.Answers.{kit_of, view_of as kitView};
ghost use Rattle.exports.specs.declared.Failure.TheVariants.{Refused};
ghost use Rattle.exports.specs.Failures.{failure_number, failure_of, told, returned};
ghost use Rattle.exports.specs.Words.{flag_word, flag_from, factor_from, factor_words, damaged, state_of, state_words};
ghost use Rattle.exports.specs.Answers.{taken, leaves, set_up_to, mark_number, direction_number, product_words, quotient_words, reading_words, reading_answer, multiply_to, read_to, tally_words, tally_to, divide_to, divide_reading_to, new_sweep_to, sweep_to};
ghost use Rattle.exports.specs.Kits.{any_damaged, kit_from, kit_state_of, kit_unfit, form_to, new_kit_to, kit_sweep_to, told_number, clean_to};

use factor::{Applied, Description, Factor, Parts};
use kit::{Kit, KitState, Verdict};
use marks::{Mark, Refusal};
use product::{Device, Product};
use quotient::Quotient;
use reading::ReadingAnswer;
use rounding::{Directed, Direction, Signed};
use sweep::{SweepRefusal, SweepState};
use tally::Counts;

// So many words have a factor, a product, a quotient, what a reading is answered with, a tally, a sweep's state, and what a sweep call counts.
const FACTOR_WORDS: usize = 10;

const PRODUCT_WORDS: usize = 4;

const QUOTIENT_WORDS: usize = 4;

const READING_WORDS: usize = 2;

const TALLY_WORDS: usize = 3;

const STATE_WORDS: usize = 14;

const COUNT_WORDS: usize = 3;

// A kit has so many places, of so many words with its number; so many words has a kit sweep's state.
const KIT_PLACES: usize = 96;

const KIT_WORDS: usize = 961;

const KIT_STATE_WORDS: usize = 964;

// Why a caller is answered with nothing but a number.
#[derive(Clone, Copy, Debug, PartialEq, Eq)]
pub enum Failure {
    // 255: a list is too short
    TooShort,
    // the refusal's number
    Refused(Refusal),
}

impl From<Refusal> for Failure {
    ghost from_gives = { λ r f. f ≡ Refused r };

    fn from(refusal: Refusal) -> Failure {
        Failure::Refused(refusal)
    }
}

impl From<SweepRefusal> for Failure {
    ghost from_gives = { λ r f. f ≡ Refused r.refusal };

    fn from(refused: SweepRefusal) -> Failure {
        Failure::Refused(refused.refusal)
    }
}

impl From<Failure> for u32 {
    ghost from_gives = { λ f n. n ≡ failure_number f };

    fn from(failure: Failure) -> u32 {
        match failure {
            Failure::TooShort => 255,
            Failure::Refused(refusal) => u32::from(refusal),
        }
    }
}

// What an exported function returns: its number, or the failure's.
fn returned(answer: Result<u32, Failure>) -> u32
    ensures { result ≡ returned answer }
{
    match answer {
        Ok(number) => number,
        Err(failure) => u32::from(failure),
    }
}

// Writes words into a list, from a place on.
fn put<T: Copy>(words: &[T], out: &mut [T], at: usize)
    requires { at + length words.now ≤ length out.old }
    ensures { out.new ≡ sets out.old at words.now }
{
    out[at..at + words.len()].copy_from_slice(words);
}

// A low significand from its word, in two's complement of 64 bits.
fn low_from(word: u64) -> i64
    ensures { result ≡ signed 64 word }
{
    word.cast_signed()
}

// A factor from its words; the sign is minus where its word is not 0.
fn factor_from(words: &[u64]) -> Factor
    requires { 10 ≤ length words.now }
    ensures { result ≡ factor_from words.now }
{
    Factor {
        minus: words[0] != 0,
        precision: words::low_half(words[1]),
        lower: words[2],
        upper: words[3],
        parts: Parts {
            high: words[4],
            low: low_from(words[5]),
            places: words::low_half(words[6]),
        },
        applied: Applied {
            high: floats::float_from(words::low_half(words[7])),
            low: floats::float_from(words::low_half(words[8])),
            scale: words::low_half(words[9]).cast_signed(),
        },
    }
}

// Whether a word of precision, places, floats or scale has an upper half that is not as written, 0. Five tests without a branch: an iterator over the words costs 2.5 ns a product.
fn is_damaged(words: &[u64]) -> bool
    requires { 10 ≤ length words.now }
    ensures { result ≡ damaged words.now }
{
    words::is_past_half(words[1])
        | words::is_past_half(words[6])
        | words::is_past_half(words[7])
        | words::is_past_half(words[8])
        | words::is_past_half(words[9])
}

// The factor in a caller's words, of which so many are due, for an answer that needs so much room; 255 where either is too short, 31 where the words are damaged.
pub fn take_factor(words: &[u64], due: usize, room: usize, needed: usize) -> Result<Factor, Failure>
    requires { 10 ≤ due }
    ensures { told result ≡ taken words.now due room needed }
{
    if words.len() < due || room < needed {
        return Err(Failure::TooShort);
    }
    if is_damaged(words) {
        return Err(Failure::Refused(Refusal::FactorDamaged));
    }
    Ok(factor_from(words))
}

// The word of a scale, in two's complement of 32 bits.
fn scale_word(scale: i32) -> u64
    ensures { result ≡ unsigned 32 scale }
{
    u64::from(scale.cast_unsigned())
}

// The words of a factor.
fn factor_words(f: Factor) -> [u64; 10]
    ensures { result ≡ factor_words f }
{
    [
        u64::from(f.minus),
        u64::from(f.precision),
        f.lower,
        f.upper,
        f.parts.high,
        f.parts.low.cast_unsigned(),
        u64::from(f.parts.places),
        u64::from(floats::bits_of(f.applied.high)),
        u64::from(floats::bits_of(f.applied.low)),
        scale_word(f.applied.scale),
    ]
}

// A mark as a number: 1 right, 2 open, 3 wrong.
fn mark_number(mark: Mark) -> u32
    ensures { result ≡ mark_number mark }
{
    match mark {
        Mark::Right => 1,
        Mark::Open => 2,
        Mark::Wrong => 3,
    }
}

// A direction as a word: 1 below, 2 equal, 3 above.
fn direction_number(d: Direction) -> u32
    ensures { result ≡ direction_number d }
{
    match d {
        Direction::Below => 1,
        Direction::Equal => 2,
        Direction::Above => 3,
    }
}

// The words of a product.
fn product_words(v: Signed<Product>) -> [u64; 4]
    ensures { result ≡ product_words v }
{
    [
        v.value.significand,
        u64::from(v.value.binade),
        u64::from(direction_number(v.direction)),
        u64::from(v.minus),
    ]
}

// The words of a quotient.
fn quotient_words(v: Signed<Quotient>) -> [u64; 4]
    ensures { result ≡ quotient_words v }
{
    [
        v.value.significand,
        i64::from(v.value.binade).cast_unsigned(),
        u64::from(direction_number(v.direction)),
        u64::from(v.minus),
    ]
}

// The bits that a reading is answered with, and their direction.
fn reading_words(y: Directed<f32>) -> [u32; 2]
    ensures { result ≡ reading_words y }
{
    [floats::bits_of(y.value), direction_number(y.direction)]
}

// The words of a tally's counts.
fn tally_words(t: Counts) -> [u64; 3]
    ensures { result ≡ tally_words t }
{
    [t.rights, t.wrongs, t.opens]
}

// A sweep's state over a factor, from the words behind the factor's: the first, last and next significand, and whether it is finished.
fn state_of(factor: Factor, words: &[u64]) -> SweepState
    requires { 14 ≤ length words.now }
    ensures { view_of result ≡ state_of factor words.now }
{
    SweepState {
        factor,
        first: words[10],
        last: words[11],
        next: words[12],
        finished: words[13] != 0,
    }
}

// Writes the words of a sweep's state.
fn put_state(s: SweepState, out: &mut [u64])
    requires { 14 ≤ length out.old }
    ensures { out.new ≡ sets out.old 0 (state_words (view_of s)) }
{
    put(&factor_words(s.factor), out, 0);
    put(
        &[s.first, s.last, s.next, u64::from(s.finished)],
        out,
        FACTOR_WORDS,
    );
}

// A significand multiplied on a device, as a number and words. The factor's words are lent on: a slice that is passed on as it came goes through memory, which costs 3 ns.
fn multiply_to(d: Device, factor: &[u64], x: u64, out: &mut [u64]) -> Result<u32, Failure>
    ensures value { returned result ≡ (multiply_to d factor.now x out.old).number }
    ensures out_after { out.new ≡ leaves (multiply_to d factor.now x out.old) out.old }
{
    let f = take_factor(&factor[..], FACTOR_WORDS, out.len(), PRODUCT_WORDS)?;
    let v = product::multiply(d, f, x)?;
    put(&product_words(v.value), out, 0);
    Ok(mark_number(v.mark))
}

// What either device answers to a reading: its mark, with the words in the list, or the refusal.
fn tell_reading(a: ReadingAnswer, out: &mut [u32]) -> u32
    requires { 2 ≤ length out.old }
    ensures value { result ≡ (reading_answer (readingSays a)).number }
    ensures out_after { out.new ≡ leaves (reading_answer (readingSays a)) out.old }
{
    let (mark, value, direction) = match a {
        ReadingAnswer::Right(y, d) => (Mark::Right, y, d),
        ReadingAnswer::Open(y, d) => (Mark::Open, y, d),
        ReadingAnswer::Wrong(y, d) => (Mark::Wrong, y, d),
        ReadingAnswer::Refused(number) => return number,
    };
    put(&reading_words(Directed { value, direction }), out, 0);
    mark_number(mark)
}

// A reading, given by its bits, multiplied on a device, as a number and words; the factor's words are lent on here too.
fn read_to(d: Device, factor: &[u64], reading: u32, out: &mut [u32]) -> Result<u32, Failure>
    ensures value { returned result ≡ (read_to d factor.now reading out.old).number }
    ensures out_after { out.new ≡ leaves (read_to d factor.now reading out.old) out.old }
{
    let f = take_factor(&factor[..], FACTOR_WORDS, out.len(), READING_WORDS)?;
    Ok(tell_reading(reading::read(d, f, floats::float_from(reading)), out))
}

// A factor that is set up, as 0 and words.
fn set_up_to(d: Description, out: &mut [u64]) -> Result<u32, Failure>
    ensures value { returned result ≡ (set_up_to d out.old).number }
    ensures out_after { out.new ≡ leaves (set_up_to d out.old) out.old }
{
    if out.len() < FACTOR_WORDS {
        return Err(Failure::TooShort);
    }
    let f = factor::set_up(d)?;
    put(&factor_words(f), out, 0);
    Ok(0)
}

// A tally, as 0 and words.
fn tally_to(factor: &[u64], first: u64, last: u64, out: &mut [u64]) -> Result<u32, Failure>
    ensures value { returned result ≡ (tally_to factor.now first last out.old).number }
    ensures out_after { out.new ≡ leaves (tally_to factor.now first last out.old) out.old }
{
    let f = take_factor(factor, FACTOR_WORDS, out.len(), TALLY_WORDS)?;
    let t = tally::tally_range(f, first, last)?;
    put(&tally_words(t), out, 0);
    Ok(0)
}

// A significand divided, as 0, for a quotient has no mark, and words.
fn divide_to(factor: &[u64], x: u64, out: &mut [u64]) -> Result<u32, Failure>
    ensures value { returned result ≡ (divide_to factor.now x out.old).number }
    ensures out_after { out.new ≡ leaves (divide_to factor.now x out.old) out.old }
{
    let f = take_factor(factor, FACTOR_WORDS, out.len(), QUOTIENT_WORDS)?;
    let v = quotient::divide(f, x)?;
    put(&quotient_words(v), out, 0);
    Ok(0)
}

// A reading, given by its bits, divided, as 0 and words.
fn divide_reading_to(factor: &[u64], reading: u32, out: &mut [u32]) -> Result<u32, Failure>
    ensures value { returned result ≡ (divide_reading_to factor.now reading out.old).number }
    ensures out_after { out.new ≡ leaves (divide_reading_to factor.now reading out.old) out.old }
{
    let f = take_factor(factor, FACTOR_WORDS, out.len(), READING_WORDS)?;
    let y = reading::divide(f, floats::float_from(reading))?;
    put(&reading_words(y), out, 0);
    Ok(0)
}

// A new sweep, as 0 and its state's words.
fn new_sweep_to(factor: &[u64], first: u64, last: u64, out: &mut [u64]) -> Result<u32, Failure>
    ensures value { returned result ≡ (new_sweep_to factor.now first last out.old).number }
    ensures out_after { out.new ≡ leaves (new_sweep_to factor.now first last out.old) out.old }
{
    let f = take_factor(factor, FACTOR_WORDS, out.len(), STATE_WORDS)?;
    let s = sweep::new_state(f, first, last)?;
    put_state(s, out);
    Ok(0)
}

// A sweep call, as 0, the words of the state handed back, and what was counted.
fn sweep_to(
    state: &mut [u64],
    cap: u64,
    list: &mut [u32],
    free: usize,
    counts: &mut [u64],
) -> Result<u32, Failure>
    ensures value { returned result ≡ (sweep_to state.old cap list.old free counts.old).number }
    ensures state_after { state.new ≡ sets state.old 0 (sweep_to state.old cap list.old free counts.old).state }
    ensures list_after { list.new ≡ (sweep_to state.old cap list.old free counts.old).list }
    ensures counts_after { counts.new ≡ sets counts.old 0 (sweep_to state.old cap list.old free counts.old).counts }
{
    let f = take_factor(state, STATE_WORDS, counts.len(), COUNT_WORDS)?;
    let r = sweep::sweep_call(state_of(f, state), cap, list, free)?;
    put_state(r.state, state);
    put(&[r.trials, r.rounds, r.place as u64], counts, 0);
    Ok(0)
}

// Set-up: 0 and the factor's 10 words, or the refusal; 255 where the list is too short. The sign is minus where it is not 0.
pub fn gusnalip_set_up(
    minus: u32,
    precision: u32,
    scale: i32,
    lower: u64,
    upper: u64,
    out: &mut [u64],
) -> u32
    ensures value { result ≡ (set_up_to (record { minus = flag_from minus; precision = precision; scale = scale; lower = lower; upper = upper }) out.old).number }
    ensures out_after { out.new ≡ leaves (set_up_to (record { minus = flag_from minus; precision = precision; scale = scale; lower = lower; upper = upper }) out.old) out.old }
{
    let d = Description {
        minus: minus != 0,
        precision,
        scale,
        lower,
        upper,
    };
    returned(set_up_to(d, out))
}

// Multiplies a significand: 1 right, 2 open, 3 wrong, with significand, binade, direction (1 below, 2 equal, 3 above) and sign (0 plus, 1 minus), or the refusal; 255 where a list is too short, 31 where the factor's words are damaged.
pub fn gusnalip_multiply(factor: &[u64], x: u64, out: &mut [u64]) -> u32
    ensures value { result ≡ (multiply_to Device.TwoStep factor.now x out.old).number }
    ensures out_after { out.new ≡ leaves (multiply_to Device.TwoStep factor.now x out.old) out.old }
{
    returned(multiply_to(Device::TwoStep, factor, x, out))
}

// The same on the one-step device.
pub fn gusnalip_multiply_once(factor: &[u64], x: u64, out: &mut [u64]) -> u32
    ensures value { result ≡ (multiply_to Device.OneStep factor.now x out.old).number }
    ensures out_after { out.new ≡ leaves (multiply_to Device.OneStep factor.now x out.old) out.old }
{
    returned(multiply_to(Device::OneStep, factor, x, out))
}

// Multiplies a reading given by its bits: 1 right, 2 open, 3 wrong, with the product's bits and direction, or the refusal; 255 where a list is too short, 31 where the factor's words are damaged.
pub fn gusnalip_read(factor: &[u64], reading: u32, out: &mut [u32]) -> u32
    ensures value { result ≡ (read_to Device.TwoStep factor.now reading out.old).number }
    ensures out_after { out.new ≡ leaves (read_to Device.TwoStep factor.now reading out.old) out.old }
{
    returned(read_to(Device::TwoStep, factor, reading, out))
}

// The same on the one-step device.
pub fn gusnalip_read_once(factor: &[u64], reading: u32, out: &mut [u32]) -> u32
    ensures value { result ≡ (read_to Device.OneStep factor.now reading out.old).number }
    ensures out_after { out.new ≡ leaves (read_to Device.OneStep factor.now reading out.old) out.old }
{
    returned(read_to(Device::OneStep, factor, reading, out))
}

// Tallies a range on the one-step device: 0 with how many significands are right, wrong and open, or the refusal; 255 where a list is too short, 31 where the factor's words are damaged.
pub fn gusnalip_tally(factor: &[u64], first: u64, last: u64, out: &mut [u64]) -> u32
    ensures value { result ≡ (tally_to factor.now first last out.old).number }
    ensures out_after { out.new ≡ leaves (tally_to factor.now first last out.old) out.old }
{
    returned(tally_to(factor, first, last, out))
}

// Divides a significand: 0 with the quotient's significand, its binade, a word in two's complement, its direction and its sign, or the refusal; 255 where a list is too short, 31 where the factor's words are damaged.
pub fn gusnalip_divide(factor: &[u64], x: u64, out: &mut [u64]) -> u32
    ensures value { result ≡ (divide_to factor.now x out.old).number }
    ensures out_after { out.new ≡ leaves (divide_to factor.now x out.old) out.old }
{
    returned(divide_to(factor, x, out))
}

// Divides a reading given by its bits: 0 with the quotient's bits and direction, or the refusal; 255 where a list is too short, 31 where the factor's words are damaged.
pub fn gusnalip_divide_reading(factor: &[u64], reading: u32, out: &mut [u32]) -> u32
    ensures value { result ≡ (divide_reading_to factor.now reading out.old).number }
    ensures out_after { out.new ≡ leaves (divide_reading_to factor.now reading out.old) out.old }
{
    returned(divide_reading_to(factor, reading, out))
}

// A new sweep: 0 and the state's 14 words, or the refusal; 255 where a list is too short, 31 where the factor's words are damaged.
pub fn gusnalip_new_sweep(factor: &[u64], first: u64, last: u64, out: &mut [u64]) -> u32
    ensures value { result ≡ (new_sweep_to factor.now first last out.old).number }
    ensures out_after { out.new ≡ leaves (new_sweep_to factor.now first last out.old) out.old }
{
    returned(new_sweep_to(factor, first, last, out))
}

// A sweep call: 0 with the state's words as handed back, words in the list, and trials, rounds and the next first free place; or the refusal, with nothing written; 255 where the state or the counts have too few words, 31 where the state's are damaged.
pub fn gusnalip_sweep(
    state: &mut [u64],
    cap: u64,
    list: &mut [u32],
    free: usize,
    counts: &mut [u64],
) -> u32
    ensures value { result ≡ (sweep_to state.old cap list.old free counts.old).number }
    ensures state_after { state.new ≡ sets state.old 0 (sweep_to state.old cap list.old free counts.old).state }
    ensures list_after { list.new ≡ (sweep_to state.old cap list.old free counts.old).list }
    ensures counts_after { counts.new ≡ sets counts.old 0 (sweep_to state.old cap list.old free counts.old).counts }
{
    returned(sweep_to(state, cap, list, free, counts))
}

// A kit from its words: the number, and every place, be it counted or not. Kept apart, since each caller would else hold the kit, 6 KB, twice on its stack.
#[inline(never)]
fn kit_from(words: &[u64]) -> Kit
    requires { 961 ≤ length words.now }
    ensures { kit_of result ≡ kit_from words.now }
{
    Kit {
        factors: std::array::from_fn(|i| factor_from(&words[1 + FACTOR_WORDS * i..])),
        count: words[0] as usize,
    }
}

// Whether the words of one of so many factors of a kit are damaged.
fn any_damaged(words: &[u64], count: usize) -> bool
    requires { (961 ≤ length words.now) × (count ≤ 96) }
    ensures { result ≡ any_damaged count (drop 1 words.now) }
{
    (0..count).any(|i| is_damaged(&words[1 + FACTOR_WORDS * i..]))
}

// Whether a kit in a caller's words, of which so many are due, is taken, for an answer that needs so much room: 255 where either is too short, 42 by the number, 31 where words of a factor that is counted are damaged. It only judges: the kit, 6 KB, would be copied once more if it were handed back in the result.
fn take_kit(words: &[u64], due: usize, room: usize, needed: usize) -> Result<(), Failure>
    requires { 961 ≤ due }
    ensures { First (kit_unfit words.now due room needed) (failure_of result) }
{
    if words.len() < due || room < needed {
        return Err(Failure::TooShort);
    }
    let count = words[0] as usize;
    if count == 0 || KIT_PLACES < count {
        return Err(Failure::Refused(Refusal::KitOutOfRange));
    }
    if any_damaged(words, count) {
        return Err(Failure::Refused(Refusal::FactorDamaged));
    }
    Ok(())
}

// A kit sweep's state over a kit, from the words behind the kit's.
fn kit_state_of(kit: Kit, words: &[u64]) -> KitState
    requires { 964 ≤ length words.now }
    ensures { kitView result ≡ kit_state_of (kit_of kit) words.now }
{
    KitState {
        kit,
        place: words[961] as usize,
        next: words[962],
        finished: words[963] != 0,
    }
}

// Writes the words of a kit as they were given. A loop, since the compiler makes memmove of `copy_from_slice` here, which the archive for C then needs from outside.
fn copy_kit(kit: &[u64], out: &mut [u64])
    requires { (961 ≤ length kit.now) × (961 ≤ length out.old) }
    ensures { out.new ≡ sets out.old 0 (take 961 kit.now) }
{
    for i in 0..KIT_WORDS {
        out[i] = kit[i];
    }
}

// The words behind a kit's: place, next significand and finished mark.
fn words_behind(s: KitState) -> [u64; 3]
    ensures { result ≡ s.place ∷ s.next ∷ flag_word s.finished ∷ [] }
{
    [s.place as u64, s.next, u64::from(s.finished)]
}

// A kit that is formed, as 0.
fn form_to(kit: &[u64]) -> Result<u32, Failure>
    ensures { returned result ≡ form_to kit.now }
{
    take_kit(kit, KIT_WORDS, 0, 0)?;
    kit::kit_check(kit_from(kit))?;
    Ok(0)
}

// A new kit sweep, as 0 and its state's words: the kit's as they were given, and those behind.
fn new_kit_to(kit: &[u64], out: &mut [u64]) -> Result<u32, Failure>
    ensures value { returned result ≡ (new_kit_to kit.now out.old).number }
    ensures out_after { out.new ≡ leaves (new_kit_to kit.now out.old) out.old }
{
    take_kit(kit, KIT_WORDS, out.len(), KIT_STATE_WORDS)?;
    let s = kit::new_state(kit_from(kit))?;
    copy_kit(kit, out);
    put(&words_behind(s), out, KIT_WORDS);
    Ok(0)
}

// A kit call, as 0, the words behind the kit's, and what was counted.
fn kit_sweep_to(
    state: &mut [u64],
    cap: u64,
    list: &mut [u32],
    free: usize,
    counts: &mut [u64],
) -> Result<u32, Failure>
    ensures value { returned result ≡ (kit_sweep_to state.old cap list.old free counts.old).number }
    ensures state_after { state.new ≡ sets state.old 961 (kit_sweep_to state.old cap list.old free counts.old).state }
    ensures list_after { list.new ≡ (kit_sweep_to state.old cap list.old free counts.old).list }
    ensures counts_after { counts.new ≡ sets counts.old 0 (kit_sweep_to state.old cap list.old free counts.old).counts }
{
    take_kit(state, KIT_STATE_WORDS, counts.len(), COUNT_WORDS)?;
    let r = kit::kit_call(kit_state_of(kit_from(state), state), cap, list, free);
    let c = r.answer?;
    put(&words_behind(r.state), state, KIT_WORDS);
    put(&[c.trials, c.rounds, c.place as u64], counts, 0);
    Ok(0)
}

// What is told of a kit as a number: 1 clean, 2 not clean, 3 not finished.
fn told_number(verdict: Verdict) -> u32
    ensures { result ≡ told_number verdict }
{
    match verdict {
        Verdict::Clean => 1,
        Verdict::NotClean => 2,
        Verdict::Unfinished => 3,
    }
}

// Whether a kit is clean, as a number.
fn clean_to(state: &[u64], entries: u64) -> Result<u32, Failure>
    ensures { returned result ≡ clean_to state.now entries }
{
    take_kit(state, KIT_STATE_WORDS, 0, 0)?;
    let verdict = kit::kit_verdict(kit_state_of(kit_from(state), state), entries)?;
    Ok(told_number(verdict))
}

// Forms a kit: 0, or the refusal 42, 31 or 43; 255 where the list is too short.
pub fn gusnalip_form_kit(kit: &[u64]) -> u32
    ensures { result ≡ form_to kit.now }
{
    returned(form_to(kit))
}

// A new kit sweep: 0 and the state's 964 words, or the refusal 42, 31 or 43; 255 where a list is too short.
pub fn gusnalip_new_kit_sweep(kit: &[u64], out: &mut [u64]) -> u32
    ensures value { result ≡ (new_kit_to kit.now out.old).number }
    ensures out_after { out.new ≡ leaves (new_kit_to kit.now out.old) out.old }
{
    returned(new_kit_to(kit, out))
}

// A kit call: 0 with the three words behind the kit's, entries in the list, and trials, rounds and the next first free place; or the refusal, with nothing written; 255 where the state or the counts have too few words.
pub fn gusnalip_kit_sweep(
    state: &mut [u64],
    cap: u64,
    list: &mut [u32],
    free: usize,
    counts: &mut [u64],
) -> u32
    ensures value { result ≡ (kit_sweep_to state.old cap list.old free counts.old).number }
    ensures state_after { state.new ≡ sets state.old 961 (kit_sweep_to state.old cap list.old free counts.old).state }
    ensures list_after { list.new ≡ (kit_sweep_to state.old cap list.old free counts.old).list }
    ensures counts_after { counts.new ≡ sets counts.old 0 (kit_sweep_to state.old cap list.old free counts.old).counts }
{
    returned(kit_sweep_to(state, cap, list, free, counts))
}

// Whether a kit is clean, by its state and how many entries its calls wrote since the new one: 1 clean, 2 not clean, 3 not finished, or the refusal 42, 31, 43 or 32; 255 where the list is too short.
pub fn gusnalip_kit_clean(state: &[u64], entries: u64) -> u32
    ensures { result ≡ clean_to state.now entries }
{
    returned(clean_to(state, entries))
}
