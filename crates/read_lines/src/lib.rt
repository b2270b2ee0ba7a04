// Runs of lines: the lines that occur many times, each read from the part of the text that starts with it, and the place of a fault.
// Promised: each answers what its definition in crate reading says of the text from there on: value, next place and refusal number.
#![tactic(auto)]

ghost use Rattle.std.specs.Prelude.{◌≡◌, length, drop};
ghost use Rattle.read_items.specs.Reads.{Reads};
ghost use Rattle.read_items.specs.Says.{most, due_says};
ghost use Rattle.read_spec.specs.Kinds.{edition_line, due_line, count_line_in, count_line};
ghost use Rattle.read_spec.specs.Lines.{at_end};
ghost use Rattle.read_spec.specs.Place.{up_to_lf, line_number, line_start};
ghost use Rattle.read_lines.specs.Counts.{limit_ok, range_of, in_range, CountsIn, Counts};
ghost use Rattle.read_lines.specs.Runs.{end_says};

use item_spec::Refusal;
use read_items::Digits;

// "Each text has at most 32,768 bytes."
pub const LONGEST: usize = 32768;

// The limits of the counts, by the counts' names.
#[derive(Clone, Copy)]
pub enum Limit {
    Depth,
    Types,
    Places,
    Transitions,
    Behaviors,
    Ports,
    Program,
    Steps,
}

// The least number and the greatest.
#[derive(Clone, Copy)]
struct Range(u32, u32);

// A line that isn't the one due ends the reading: why, and the place of that line.
#[derive(Clone, Copy)]
pub struct LineFault<R = Refusal> {
    pub refusal: R,
    pub at: usize,
}

// The line of a key and the number due: the place past it.
fn due_line(s: &[u8], key: &[u8], number: u32) -> Option<usize>
    ensures { Reads s.now (due_says result) (due_line key.now number s.now) }
{
    let (a, used) = read_items::number_line(s, key, Digits::Five)?;
    if a != number {
        return None;
    }
    Some(used)
}

// `sheet=1` or `sheet=2`: the one number of a line, and the place past it.
fn edition_line(s: &[u8]) -> Result<(u32, usize), Refusal>
    ensures { CountsIn s.now 1 2 result (edition_line s.now) }
{
    let Some((a, used)) = read_items::number_line(s, b"sheet=", Digits::Five) else {
        return Err(Refusal::BadForm);
    };
    if a < 1 {
        return Err(Refusal::BadForm);
    }
    let unknown = 2 < a;
    if unknown {
        return Err(Refusal::BadForm);
    }
    Ok((a, used))
}

// The numbers that a limit lies between.
fn range_of(limit: Limit) -> Range
    ensures { result ≡ range_of limit }
{
    match limit {
        Limit::Depth => Range(0, 8),
        Limit::Types => Range(1, 16),
        Limit::Places => Range(1, 16),
        Limit::Transitions => Range(0, 32),
        Limit::Behaviors => Range(0, 8),
        Limit::Ports => Range(0, 16),
        Limit::Program => Range(0, 256),
        Limit::Steps => Range(0, 1024),
    }
}

// The line of a key and a number from the least to the greatest.
fn within_line(
    s: &[u8],
    key: &[u8],
    digits: Digits,
    least: u32,
    greatest: u32,
) -> Result<(u32, usize), Refusal>
    ensures { CountsIn s.now least greatest result (count_line_in (most digits) key.now (in_range least greatest) s.now) }
{
    let Some((a, used)) = read_items::number_line(s, key, digits) else {
        return Err(Refusal::BadForm);
    };
    if a < least {
        return Err(Refusal::BeyondLimit);
    }
    if greatest < a {
        return Err(Refusal::BeyondLimit);
    }
    Ok((a, used))
}

// The same lines at a place of a text: the part from there on, and the next line's place.
pub fn due_at(text: &[u8], at: usize, key: &[u8], number: u32) -> Option<usize>
    ensures { Reads text.now (due_says result) (due_line key.now number (drop at text.now)) }
{
    let start = read_items::place_in(text, at);
    let used = due_line(&text[start..], key, number)?;
    Some(start + used)
}

pub fn edition_at(text: &[u8], at: usize) -> Result<(u32, usize), Refusal>
    ensures { CountsIn text.now 1 2 result (edition_line (drop at text.now)) }
{
    let start = read_items::place_in(text, at);
    let (a, used) = edition_line(&text[start..])?;
    Ok((a, start + used))
}

pub fn within_at(
    text: &[u8],
    at: usize,
    key: &[u8],
    digits: Digits,
    least: u32,
    greatest: u32,
) -> Result<(u32, usize), Refusal>
    ensures { CountsIn text.now least greatest result
        (count_line_in (most digits) key.now (in_range least greatest) (drop at text.now)) }
{
    let start = read_items::place_in(text, at);
    let (a, used) = within_line(&text[start..], key, digits, least, greatest)?;
    Ok((a, start + used))
}

pub fn count_at(text: &[u8], at: usize, key: &[u8], limit: Limit) -> Result<(u32, usize), Refusal>
    ensures { Counts text.now limit result (count_line key.now (limit_ok limit) (drop at text.now)) }
{
    let range = range_of(limit);
    within_at(text, at, key, Digits::Five, range.0, range.1)
}

// Nothing is left from the place at on.
pub fn at_end(text: &[u8], at: usize) -> Result<(), Refusal>
    ensures { end_says result (drop at text.now) ≡ at_end (drop at text.now) }
{
    if at < text.len() {
        return Err(Refusal::BytesAfter);
    }
    Ok(())
}

// How long the line at a place is, without its LF.
pub fn line_size(s: &[u8], at: usize) -> usize
    ensures { result ≡ length (up_to_lf (drop at s.now)) }
{
    let from = read_items::place_in(s, at);
    for i in from..s.len() {
        if s[i] == b'\n' {
            return i - from;
        }
    }
    s.len() - from
}

// The number of the line at a place, from 1.
pub fn line_number(s: &[u8], at: usize) -> usize
    ensures { result ≡ line_number s.now at }
{
    let before = &s[..read_items::place_in(s, at)];
    let mut number: usize = 1;
    for byte in before {
        if *byte == b'\n' {
            number += 1;
        }
    }
    number
}

// Where the line starts that has so many lines before it; the text's end where there are not so many.
pub fn line_start(s: &[u8], lines: usize) -> usize
    ensures { result ≡ line_start lines s.now }
{
    let mut left = lines;
    for (i, byte) in s.iter().enumerate() {
        if left == 0 {
            return i;
        }
        if *byte == b'\n' {
            left -= 1;
        }
    }
    s.len()
}
