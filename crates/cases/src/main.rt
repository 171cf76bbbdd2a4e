// Answers lines of calls of the engine: each line comes back, then one blank and the result. Fields are upper-case hexadecimal digits, one blank apart.
//
//   01 S (8) n (8) k (8) L (16) U (16)   set-up with the sign S, 0 or not 0; an accepted factor becomes the factor
//   02 F (2) V (16)                 word F of the state becomes V
//   03 X (16)                       multiplies the significand X
//   04 R (8)                        multiplies the reading with these bits
//   05 H (2) X (16)                 the next suspect at or after X, in the low half (00) or the high half (01)
//   06 A (16) B (16)                a new state over A to B; if accepted it is the state
//   07 C (16) Z (2) P (16)          a sweep call: cap C, the list's first Z words, first free place P
//   08 V (8)                        every word of the list becomes V
//   09 X (16)                       divides the significand X
//   0A R (8)                        divides the reading with these bits
//   0B X (16)                       multiplies the significand X in one step
//   0C R (8)                        multiplies the reading with these bits in one step
//   0D A (16) B (16)                the tally of the significands from A to B in one step: right, wrong and open, 8 digits each
//   0E P (2)                        the factor comes to place P of the kit
//   0F W (4) V (16)                 word W of the kit's state becomes V
//   10                              forms the kit
//   11                              a new kit sweep; if accepted it is the kit's state
//   12 C (16) Z (2) P (16)          a kit call: cap C, the list's first Z words, first free place P
//   13 E (16)                       whether the kit is clean, its calls having written E entries: 01 clean, 02 not clean, 03 not finished
//
// The factor, the state and the kit's state are the exported words, at first all 0. A refusal is two decimal digits, and so is a mark: 01 right, 02 open, 03 wrong. A product, a quotient and a reading's answer end in the direction: 01 below, 02 equal, 03 above; those of significands then in the sign, 00 plus or 01 minus. Any other line is answered with 24.

#![tactic(auto)]

ghost use Rattle.std.specs.Prelude.{◌<◌, ◌≤◌};
ghost use Rattle.wide.specs.Value.{half_word};

use exports::Failure;
use factor::{Description, SoundFactor};
use frame::read_field;
use marks::Refusal;
use product::Device;
use search::Found;

// The words of a sweep's state, of the list and of a kit's state.
const STATE_WORDS: usize = 14;

const LIST_WORDS: usize = 64;

const KIT_WORDS: usize = 964;

// A kit has so many places, each with the words of a factor, with which a state begins.
const KIT_PLACES: usize = 96;

const FACTOR_WORDS: usize = 10;

// ---- lines
// Which half of a factor's significands a search looks at.
#[derive(Clone, Copy, Debug, PartialEq, Eq)]
enum Half {
    Low,
    High,
}

// What a line says.
#[derive(Clone, Copy, Debug, PartialEq, Eq)]
enum Line {
    SetUp(Description),
    Change { at: usize, value: u64 },
    Multiply(Device, u64),
    Read(Device, u32),
    Divide(u64),
    DivideReading(u32),
    Tally { first: u64, last: u64 },
    Search { half: Half, start: u64 },
    NewSweep { first: u64, last: u64 },
    Sweep { cap: u64, words: usize, free: usize },
    Fill(u32),
    PlaceFactor { place: usize },
    ChangeKit { at: usize, value: u64 },
    FormKit,
    NewKitSweep,
    SweepKit { cap: u64, words: usize, free: usize },
    Clean { entries: u64 },
}

// What of a line is not read yet.
#[derive(Clone, Copy)]
struct Fields<'a> {
    rest: &'a [u8],
}

impl<'a> Fields<'a> {
    // The next field: a blank, and so many digits.
    fn next(&mut self, width: usize) -> Option<u64>
        requires { width ≤ 16 }
    {
        let (field, rest) = self.rest.split_at_checked(1 + width)?;
        self.rest = rest;
        if field[0] == b' ' {
            read_field(field, 1, width)
        } else {
            None
        }
    }

    // One of 16 digits.
    fn word(&mut self) -> Option<u64> {
        self.next(16)
    }

    // One of 8.
    fn half_word(&mut self) -> Option<u32> {
        Some(words::low_half(self.next(8)?))
    }

    // One that is a place, or a number of words.
    fn place(&mut self, width: usize) -> Option<usize>
        requires { width ≤ 16 }
    {
        Some(self.next(width)? as usize)
    }

    // A line of a kind.
    fn line(&mut self, kind: u64) -> Option<Line> {
        Some(match kind {
            0x01 => Line::SetUp(Description {
                minus: self.half_word()? != 0,
                precision: self.half_word()?,
                scale: self.half_word()?.cast_signed(),
                lower: self.word()?,
                upper: self.word()?,
            }),
            0x02 => Line::Change {
                at: self.place(2)?,
                value: self.word()?,
            },
            0x03 => Line::Multiply(Device::TwoStep, self.word()?),
            0x04 => Line::Read(Device::TwoStep, self.half_word()?),
            0x05 => Line::Search {
                half: match self.next(2)? {
                    0 => Half::Low,
                    1 => Half::High,
                    _ => return None,
                },
                start: self.word()?,
            },
            0x06 => Line::NewSweep {
                first: self.word()?,
                last: self.word()?,
            },
            0x07 => Line::Sweep {
                cap: self.word()?,
                words: self.place(2)?,
                free: self.place(16)?,
            },
            0x08 => Line::Fill(self.half_word()?),
            0x09 => Line::Divide(self.word()?),
            0x0a => Line::DivideReading(self.half_word()?),
            0x0b => Line::Multiply(Device::OneStep, self.word()?),
            0x0c => Line::Read(Device::OneStep, self.half_word()?),
            0x0d => Line::Tally {
                first: self.word()?,
                last: self.word()?,
            },
            0x0e => Line::PlaceFactor {
                place: self.place(2)?,
            },
            0x0f => Line::ChangeKit {
                at: self.place(4)?,
                value: self.word()?,
            },
            0x10 => Line::FormKit,
            0x11 => Line::NewKitSweep,
            0x12 => Line::SweepKit {
                cap: self.word()?,
                words: self.place(2)?,
                free: self.place(16)?,
            },
            0x13 => Line::Clean {
                entries: self.word()?,
            },
            _ => return None,
        })
    }
}

impl Line {
    // The line that some bytes are, if they are one: two digits for its kind, and the fields of that.
    fn of(bytes: &[u8]) -> Option<Line> {
        let (kind, rest) = bytes.split_at_checked(2)?;
        let kind = read_field(kind, 0, 2)?;
        let mut fields = Fields { rest };
        let line = fields.line(kind)?;
        if fields.rest.is_empty() {
            Some(line)
        } else {
            None
        }
    }
}

// ---- answers
// A field: a blank, then a number of `width` digits in a base. Each is a write of its own, so that of a write that fails just one of them is lost.
fn put_number(width: usize, base: u64, v: u64)
    requires { (width ≤ 16) × (0 < base) × (base ≤ 16) }
{
    io::write_all(1, b" ");
    let mut text = [0; 16];
    frame::put_digits(&mut text, 0, width, base, v);
    io::write_all(1, &text[..width]);
}

fn put_field(width: usize, v: u64)
    requires { width ≤ 16 }
{
    put_number(width, 16, v);
}

// A mark, a refusal, or 0 for accepted.
fn put_outcome(number: u32) {
    put_number(2, 10, u64::from(number));
}

fn put_refusal(refusal: Refusal) {
    put_outcome(u32::from(refusal));
}

fn put_reading(answer: [u32; 2]) {
    put_field(8, u64::from(answer[0]));
    put_field(2, u64::from(answer[1]));
}

fn put_counts(counts: [u64; 3]) {
    put_field(16, counts[0]);
    put_field(16, counts[1]);
    put_field(16, counts[2]);
}

fn put_list(list: &[u32]) {
    for word in list {
        put_field(8, u64::from(*word));
    }
}

fn put_found(found: Found) {
    match found.place {
        Some(place) => {
            put_outcome(1);
            put_field(16, place);
        }
        None => put_outcome(0),
    }
    put_field(16, found.rounds);
}

// The next suspect of a half at or after a start.
fn next(f: SoundFactor, half: Half, start: u64) -> Found
    requires { start ≤ half_word }
{
    let windows = suspects::windows_of(f.factor);
    match half {
        Half::Low => suspects::next(windows.low, start),
        Half::High => suspects::next(windows.high, start),
    }
}

// A word of a list becomes another, if there is one so far.
fn change(words: &mut [u64], at: usize, value: u64) {
    if at < words.len() {
        put_outcome(0);
        words[at] = value;
    } else {
        put_refusal(Refusal::NotAFrame);
    }
}

// ---- the machine
// What lines change: the state, which begins with the factor's words, the list, and the kit's state.
#[derive(Clone, Copy)]
struct Machine {
    state: [u64; STATE_WORDS],
    list: [u32; LIST_WORDS],
    kit: [u64; KIT_WORDS],
}

impl Machine {
    fn new() -> Machine {
        Machine {
            state: [0; STATE_WORDS],
            list: [u32::MAX; LIST_WORDS],
            kit: [0; KIT_WORDS],
        }
    }

    // The answer to a line.
    fn answer(&mut self, line: Line) {
        match line {
            Line::SetUp(d) => self.set_up(d),
            Line::Change { at, value } => change(&mut self.state, at, value),
            Line::Multiply(device, x) => self.multiply(device, x),
            Line::Read(device, reading) => self.read(device, reading),
            Line::Divide(x) => self.divide(x),
            Line::DivideReading(reading) => self.divide_reading(reading),
            Line::Tally { first, last } => self.tally(first, last),
            Line::Search { half, start } => self.search(half, start),
            Line::NewSweep { first, last } => self.new_sweep(first, last),
            Line::Sweep { cap, words, free } => self.sweep(cap, words, free),
            Line::Fill(word) => self.fill(word),
            Line::PlaceFactor { place } => self.place_factor(place),
            Line::ChangeKit { at, value } => change(&mut self.kit, at, value),
            Line::FormKit => put_outcome(exports::gusnalip_form_kit(&self.kit)),
            Line::NewKitSweep => self.new_kit_sweep(),
            Line::SweepKit { cap, words, free } => self.sweep_kit(cap, words, free),
            Line::Clean { entries } => {
                put_outcome(exports::gusnalip_kit_clean(&self.kit, entries));
            }
        }
    }

    fn set_up(&mut self, d: Description) {
        let number = exports::gusnalip_set_up(
            u32::from(d.minus),
            d.precision,
            d.scale,
            d.lower,
            d.upper,
            &mut self.state,
        );
        put_outcome(number);
        if number == 0 {
            put_field(2, self.state[0]);
            put_field(16, self.state[4]);
            put_field(16, self.state[5]);
            put_field(8, self.state[6]);
            put_field(8, self.state[7]);
            put_field(8, self.state[8]);
        }
    }

    fn multiply(&self, device: Device, x: u64) {
        let mut answer = [0; 4];
        let number = match device {
            Device::TwoStep => exports::gusnalip_multiply(&self.state, x, &mut answer),
            Device::OneStep => exports::gusnalip_multiply_once(&self.state, x, &mut answer),
        };
        put_outcome(number);
        if number <= 3 {
            put_field(16, answer[0]);
            put_field(2, answer[1]);
            put_field(2, answer[2]);
            put_field(2, answer[3]);
        }
    }

    fn read(&self, device: Device, reading: u32) {
        let mut answer = [0; 2];
        let number = match device {
            Device::TwoStep => exports::gusnalip_read(&self.state, reading, &mut answer),
            Device::OneStep => exports::gusnalip_read_once(&self.state, reading, &mut answer),
        };
        put_outcome(number);
        if number <= 3 {
            put_reading(answer);
        }
    }

    fn divide(&self, x: u64) {
        let mut answer = [0; 4];
        let number = exports::gusnalip_divide(&self.state, x, &mut answer);
        put_outcome(number);
        if number == 0 {
            put_field(16, answer[0]);
            put_field(16, answer[1]);
            put_field(2, answer[2]);
            put_field(2, answer[3]);
        }
    }

    fn divide_reading(&self, reading: u32) {
        let mut answer = [0; 2];
        let number = exports::gusnalip_divide_reading(&self.state, reading, &mut answer);
        put_outcome(number);
        if number == 0 {
            put_reading(answer);
        }
    }

    fn tally(&self, first: u64, last: u64) {
        let mut answer = [0; 3];
        let number = exports::gusnalip_tally(&self.state, first, last, &mut answer);
        put_outcome(number);
        if number == 0 {
            put_field(8, answer[0]);
            put_field(8, answer[1]);
            put_field(8, answer[2]);
        }
    }

    // The factor that the state has, if it is sound.
    fn factor(&self) -> Result<SoundFactor, Failure> {
        let f = exports::take_factor(&self.state, FACTOR_WORDS, 0, 0)?;
        Ok(SoundFactor::new(f)?)
    }

    fn search(&self, half: Half, start: u64) {
        match self.factor() {
            Ok(f) => {
                if start <= 1 << 63 {
                    put_found(next(f, half, start));
                } else {
                    put_refusal(Refusal::SignificandOutOfRange);
                }
            }
            Err(failure) => put_outcome(u32::from(failure)),
        }
    }

    fn new_sweep(&mut self, first: u64, last: u64) {
        let factor = self.state;
        put_outcome(exports::gusnalip_new_sweep(&factor, first, last, &mut self.state));
    }

    // A sweep call on the list's first words, with what it answers; then the state and those words.
    fn sweep(&mut self, cap: u64, words: usize, free: usize) {
        if LIST_WORDS < words {
            put_refusal(Refusal::NotAFrame);
            return;
        }
        let mut list = self.list;
        let mut counts = [0; 3];
        let number = exports::gusnalip_sweep(
            &mut self.state,
            cap,
            &mut list[..words],
            free,
            &mut counts,
        );
        self.list = list;
        put_outcome(number);
        if number == 0 {
            put_counts(counts);
        }
        put_field(16, self.state[10]);
        put_field(16, self.state[11]);
        put_field(16, self.state[12]);
        put_field(2, u64::from(self.state[13] != 0));
        put_list(&self.list[..words]);
    }

    fn fill(&mut self, word: u32) {
        self.list = [word; LIST_WORDS];
        put_outcome(0);
    }

    // The words of the factor come to a place of the kit, behind the number of its factors.
    fn place_factor(&mut self, place: usize) {
        if place < KIT_PLACES {
            put_outcome(0);
            let at = 1 + FACTOR_WORDS * place;
            self.kit[at..at + FACTOR_WORDS].copy_from_slice(&self.state[..FACTOR_WORDS]);
        } else {
            put_refusal(Refusal::NotAFrame);
        }
    }

    fn put_kit_state(&self) {
        put_field(16, self.kit[961]);
        put_field(16, self.kit[962]);
        put_field(2, u64::from(self.kit[963] != 0));
    }

    fn new_kit_sweep(&mut self) {
        let kit = self.kit;
        put_outcome(exports::gusnalip_new_kit_sweep(&kit, &mut self.kit));
        self.put_kit_state();
    }

    // A kit call on the list's first words, with what it answers; then the kit's state and those words.
    fn sweep_kit(&mut self, cap: u64, words: usize, free: usize) {
        if LIST_WORDS < words {
            put_refusal(Refusal::NotAFrame);
            return;
        }
        let mut list = self.list;
        let mut counts = [0; 3];
        let number = exports::gusnalip_kit_sweep(
            &mut self.kit,
            cap,
            &mut list[..words],
            free,
            &mut counts,
        );
        self.list = list;
        put_outcome(number);
        if number == 0 {
            put_counts(counts);
        }
        self.put_kit_state();
        put_list(&self.list[..words]);
    }
}

fn run(input: &[u8]) {
    let mut machine = Machine::new();
    for bytes in input.split_inclusive(|b| *b == b'\n') {
        // A last line without its line feed is none.
        match bytes.strip_suffix(b"\n") {
            Some(line) => {
                io::write_all(1, line);
                match Line::of(line) {
                    Some(line) => machine.answer(line),
                    None => put_refusal(Refusal::NotAFrame),
                }
            }
            None => {
                io::write_all(1, bytes);
                put_refusal(Refusal::NotAFrame);
            }
        }
        io::write_all(1, b"\n");
    }
}

fn main() {
    let mut input = io::large_buffer();
    let n = io::read_full(0, &mut input);
    run(&input[..n]);
}
