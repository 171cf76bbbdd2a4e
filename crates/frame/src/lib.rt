// Frames and report: a line read as a frame, and the lines that are printed, byte for byte.

#![tactic(auto)]

ghost use Rattle.std.specs.Prelude.{◌≡◌, [], ◌∷◌, ◌++◌, ◌+◌, ◌*◌, ◌<◌, ◌≤◌, length};
ghost use Rattle.marks.specs.Answers.{said};
ghost use Rattle.frame.specs.Digits.{digit_byte, digits, digit_value, field_at};
ghost use Rattle.frame.specs.Frame.{signed_byte, spaced, frame_of, framed};
ghost use Rattle.frame.specs.Report.{verdict_of, word_line, report_line, refusal_line};
ghost use Rattle.frame.specs.Written.{Written};

use factor::Description;
use marks::Refusal;

// An end has so many digits.
const END_DIGITS: usize = 16;

// What the precision's byte has added for a negative factor.
const SIGN: u64 = 0x80;

// The byte between fields.
const BLANK: u8 = b' ';

// The byte at a line's end.
pub const LINE_FEED: u8 = b'\n';

// The bases in which numbers are printed.
const HEXADECIMAL: u64 = 16;

const DECIMAL: u64 = 10;

// What is reported of a frame: its line's number, and how many significands were tried, found wrong and found open.
#[derive(Clone, Copy, Debug, PartialEq, Eq)]
pub struct Report {
    pub number: u64,
    pub trials: u64,
    pub wrongs: u64,
    pub opens: u64,
}

// The value of an upper-case hexadecimal digit.
#[tactic(auto, unfolding(crate::specs::Digits::digit_value))]
fn digit_value(b: u8) -> Option<u64>
    ensures { result ≡ digit_value b }
{
    match b {
        b'0'..=b'9' => Some((b - b'0') as u64),
        b'A'..=b'F' => Some(10 + (b - b'A') as u64),
        _ => None,
    }
}

// The value of the `width` digits from `at` on; none where one of them is no digit, or the line ends before them.
pub fn read_field(line: &[u8], at: usize, width: usize) -> Option<u64>
    requires { width ≤ 16 }
    ensures { result ≡ field_at line.now at width }
{
    let mut value = 0;
    for b in line.get(at..)?.get(..width)? {
        value = value * 16 + digit_value(*b)?;
    }
    Some(value)
}

// Whether blanks stand where the fields of a frame meet, and the line ends where the last field does; each end has e digits.
#[tactic(auto, unfolding(crate::specs::Frame::spaced))]
fn is_spaced(line: &[u8], e: usize) -> bool
    requires { e ≤ 32 }
    ensures { result ≡ spaced e line.now }
{
    line.len() == 7 + 2 * e && line[2] == BLANK && line[5] == BLANK && line[6 + e] == BLANK
}

// A byte in two's complement.
fn signed_byte(b: u64) -> i32
    requires { b < 256 }
    ensures { result ≡ signed_byte b }
{
    i32::from((b as u8).cast_signed())
}

// The description of a factor that a line says, if it is a frame.
fn description_in(line: &[u8]) -> Option<Description>
    ensures { framed result ≡ frame_of line.now }
{
    if !is_spaced(line, END_DIGITS) {
        return None;
    }
    let precision = read_field(line, 0, 2)?;
    let scale = read_field(line, 3, 2)?;
    let lower = read_field(line, 6, END_DIGITS)?;
    let upper = read_field(line, 7 + END_DIGITS, END_DIGITS)?;
    Some(Description {
        minus: SIGN <= precision,
        precision: (precision % SIGN) as u32,
        scale: signed_byte(scale),
        lower,
        upper,
    })
}

// What a line says: the description of a factor, or refusal 24.
pub fn read_frame(line: &[u8]) -> Result<Description, Refusal>
    ensures { said result ≡ frame_of line.now }
{
    description_in(line).ok_or(Refusal::NotAFrame)
}

// The digit for a number below 16.
#[tactic(auto, unfolding(crate::specs::Digits::digit_byte))]
fn digit_byte(d: u64) -> u8
    requires { d < 16 }
    ensures { result ≡ digit_byte d }
{
    if d < 10 {
        b'0' + d as u8
    } else {
        b'A' + (d - 10) as u8
    }
}

// The last `width` digits of v in a base up to 16, written from `at` on; the answer is the place after them.
pub fn put_digits(buf: &mut [u8], at: usize, width: usize, base: u64, v: u64) -> usize
    requires { (at + width ≤ length buf.old) × (0 < base) × (base ≤ 16) }
    ensures { Written buf.old at (digits base width v) buf.new result }
{
    let mut rest = v;
    for place in (at..at + width).rev() {
        buf[place] = digit_byte(rest % base);
        rest /= base;
    }
    at + width
}

// The same digits, and a byte after them.
fn put_field(buf: &mut [u8], at: usize, width: usize, base: u64, v: u64, after: u8) -> usize
    requires { (at + (width + 1) ≤ length buf.old) × (0 < base) × (base ≤ 16) }
    ensures { Written buf.old at (digits base width v ++ (after ∷ [])) buf.new result }
{
    let end = put_digits(buf, at, width, base, v);
    buf[end] = after;
    end + 1
}

// A listed word of `width` digits, on a line of its own.
#[tactic(auto, unfolding(crate::specs::Report::word_line))]
pub fn put_word(buf: &mut [u8], at: usize, width: usize, v: u64) -> usize
    requires { at + (width + 1) ≤ length buf.old }
    ensures { Written buf.old at (word_line width v) buf.new result }
{
    put_field(buf, at, width, HEXADECIMAL, v, LINE_FEED)
}

// The verdict: 0 clean, 1 some wrong, 2 open only.
fn verdict(wrongs: u64, opens: u64) -> u64
    ensures { result ≡ verdict_of wrongs opens }
{
    match (wrongs, opens) {
        (0, 0) => 0,
        (0, _) => 2,
        _ => 1,
    }
}

// The report on a frame, its counts of `width` digits.
pub fn put_report(buf: &mut [u8], at: usize, width: usize, report: Report) -> usize
    requires { at + (11 + 3 * width) ≤ length buf.old }
    ensures { Written buf.old at (report_line width report) buf.new result }
{
    let a = put_field(buf, at, 4, HEXADECIMAL, report.number, BLANK);
    let b = put_field(
        buf,
        a,
        2,
        HEXADECIMAL,
        verdict(report.wrongs, report.opens),
        BLANK,
    );
    let c = put_field(buf, b, width, HEXADECIMAL, report.trials, BLANK);
    let d = put_field(buf, c, width, HEXADECIMAL, report.wrongs, BLANK);
    put_field(buf, d, width, HEXADECIMAL, report.opens, LINE_FEED)
}

// The line of a refused frame: its number, FF and the refusal in two decimal digits.
pub fn put_refusal(buf: &mut [u8], at: usize, number: u64, refusal: u32) -> usize
    requires { at + 11 ≤ length buf.old }
    ensures { Written buf.old at (refusal_line number refusal) buf.new result }
{
    let a = put_field(buf, at, 4, HEXADECIMAL, number, BLANK);
    let b = put_field(buf, a, 2, HEXADECIMAL, 255, BLANK);
    put_field(buf, b, 2, DECIMAL, refusal as u64, LINE_FEED)
}
