// Runs of lines, one after the other: each answers the next line's place, or the fault of the line at which the reading ends.
// Promised: the due line, a line of one number and the end of a text as crate reading defines them, and what a whole text answers.
#![tactic(auto)]

ghost use Rattle.std.specs.Prelude.{◌≡◌, min, length, drop};
ghost use Rattle.read_spec.specs.Kinds.{edition_line, due_line, count_line};
ghost use Rattle.read_spec.specs.Lines.{line, at_end};
ghost use Rattle.read_lines.specs.Counts.{limit_ok, greatest, in_range};
ghost use Rattle.read_lines.specs.Runs.{RunsTo, came, number_came};
ghost use Rattle.read_chain.specs.After.{After, SaidAs, SaidFor, no_value, one_number};
ghost use Rattle.read_chain.specs.Chain.{Few, short, placed};
ghost use Rattle.read_chain.specs.Whole.{PlaceOf};

use item_spec::Refusal;
use read_items::Digits;
use read_lines::{LONGEST, Limit, LineFault};

// The number of a text's refusal, or 0, and the place of the line at fault, or the text's end.
#[derive(Clone, Copy)]
pub struct Place {
    pub refused: u8,
    pub place: usize,
}

// What was read of the line at a place, or its fault.
pub fn line_at<T: Drop, R: Drop>(at: usize, line: Result<T, R>) -> Result<T, LineFault<R>>
    ensures { result ≡ placed at line }
{
    match line {
        Ok(read) => Ok(read),
        Err(refusal) => Err(LineFault { refusal, at }),
    }
}

// The line of a key and the number due.
pub fn due_run(text: &[u8], start: usize, key: &[u8], number: u32) -> Result<usize, LineFault>
    ensures { RunsTo text.now (came result tt) (line (due_line key.now number) (drop start text.now)) }
{
    let Some(at) = read_lines::due_at(text, start, key, number) else {
        let at = read_items::place_in(text, start);
        return Err(LineFault {
            refusal: Refusal::BadForm,
            at,
        });
    };
    Ok(at)
}

// Nothing is left from a place on.
pub fn end_run(text: &[u8], start: usize) -> Result<usize, LineFault>
    ensures { RunsTo text.now (came result tt) (at_end (drop start text.now)) }
{
    let at = read_items::place_in(text, start);
    line_at(at, read_lines::at_end(text, at))?;
    Ok(at)
}

// A text that is not too long, at its start.
pub fn length_run(text: &[u8]) -> Result<usize, LineFault>
    ensures { RunsTo text.now (came result tt) (short text.now) }
{
    let long = LONGEST < text.len();
    if long {
        return Err(LineFault {
            refusal: Refusal::TooLong,
            at: 0,
        });
    }
    Ok(0)
}

// What the line at a place comes to that has one number or one list.
pub fn number_run<R: Drop>(
    text: &[u8],
    start: usize,
    line: Result<(u32, usize), R>,
) -> Result<(u32, usize), LineFault<R>>
    ensures { result ≡ placed (min start (length text.now)) line }
{
    line_at(read_items::place_in(text, start), line)
}

// The first line of a sheet.
pub fn edition_run(text: &[u8], start: usize) -> Result<(u32, usize), LineFault>
    ensures reads { RunsTo text.now (number_came result) (line edition_line (drop start text.now)) }
    ensures few { Few 2 result }
{
    let line = read_lines::edition_at(text, start);
    number_run(text, start, line)
}

// The line of a key and a number within its limit.
pub fn count_run(
    text: &[u8],
    start: usize,
    key: &[u8],
    limit: Limit,
) -> Result<(u32, usize), LineFault>
    ensures reads { RunsTo text.now (number_came result) (line (count_line key.now (limit_ok limit)) (drop start text.now)) }
    ensures few { Few (greatest limit) result }
{
    let line = read_lines::count_at(text, start, key, limit);
    number_run(text, start, line)
}

// The line of a key and a number from the least to the greatest.
pub fn within_run(
    text: &[u8],
    start: usize,
    key: &[u8],
    least: u32,
    greatest: u32,
) -> Result<(u32, usize), LineFault>
    ensures reads { RunsTo text.now (number_came result) (line (count_line key.now (in_range least greatest)) (drop start text.now)) }
    ensures few { Few greatest result }
{
    let line = read_lines::within_at(text, start, key, Digits::Five, least, greatest);
    number_run(text, start, line)
}

// What was read of a line; a fault's refusal is said as R says it.
fn said_as<T: Drop, R: From<Refusal>>(line: Result<T, LineFault>) -> Result<T, LineFault<R>>
    ensures { SaidAs R.from_gives line result }
{
    match line {
        Ok(read) => Ok(read),
        Err(fault) => Err(LineFault {
            refusal: R::from(fault.refusal),
            at: fault.at,
        }),
    }
}

// The runs above after what was read so far: where that stopped, whatever refusal it names, nothing more is read.
pub fn then_due<R: Drop + From<Refusal>>(
    text: &[u8],
    read: Result<usize, LineFault<R>>,
    key: &[u8],
    number: u32,
) -> Result<usize, LineFault<R>>
    ensures { After (SaidFor R.from_gives) no_value text.now read (line (due_line key.now number)) result }
{
    said_as(due_run(text, read?, key, number))
}

pub fn then_edition<R: Drop + From<Refusal>>(
    text: &[u8],
    read: Result<usize, LineFault<R>>,
) -> Result<(u32, usize), LineFault<R>>
    ensures reads { After (SaidFor R.from_gives) one_number text.now read (line edition_line) result }
    ensures few { Few 2 result }
{
    said_as(edition_run(text, read?))
}

pub fn then_number<R: Drop + From<Refusal>>(
    text: &[u8],
    read: Result<usize, LineFault<R>>,
    key: &[u8],
    limit: Limit,
) -> Result<(u32, usize), LineFault<R>>
    ensures reads { After (SaidFor R.from_gives) one_number text.now read (line (count_line key.now (limit_ok limit))) result }
    ensures few { Few (greatest limit) result }
{
    said_as(count_run(text, read?, key, limit))
}

pub fn then_within<R: Drop + From<Refusal>>(
    text: &[u8],
    read: Result<usize, LineFault<R>>,
    key: &[u8],
    least: u32,
    greatest: u32,
) -> Result<(u32, usize), LineFault<R>>
    ensures reads { After (SaidFor R.from_gives) one_number text.now read (line (count_line key.now (in_range least greatest))) result }
    ensures few { Few greatest result }
{
    said_as(within_run(text, read?, key, least, greatest))
}

pub fn then_end<R: Drop + From<Refusal>>(
    text: &[u8],
    read: Result<usize, LineFault<R>>,
) -> Result<usize, LineFault<R>>
    ensures { After (SaidFor R.from_gives) no_value text.now read at_end result }
{
    said_as(end_run(text, read?))
}

// What the lines of a whole text come to, their fault by its number, whichever enum names it; a number names itself.
pub fn came_to<R: Into<u8>>(read: Result<usize, LineFault<R>>) -> Place
    ensures { PlaceOf R.converts read result }
{
    match read {
        Ok(place) => Place { refused: 0, place },
        Err(fault) => Place {
            refused: fault.refusal.into(),
            place: fault.at,
        },
    }
}
