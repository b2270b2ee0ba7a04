// The pass list of a register, line by line, and the word PASS.
// Promised: for any bytes, any pass line and any counts, where a line stands (`line_standing`), how it is counted (`counted`), every byte that the list says
// of it (`line_text`) and at its end (`counts_text`), and whether there is a list at all (`wrong_in`).
#![tactic(auto)]

mod cells;

ghost use Rattle.std.specs.Prelude.{◌≡◌, ◌≤◌, ◌<◌, length, take};
ghost use Rattle.write_items.specs.Written.{Written};
ghost use Rattle.passlist_spec.specs.Row.{name_cell};
ghost use Rattle.passlist_spec.specs.Standing.{pass_in, by_mark, when_done, when_not, when_absent, standing_by, standing, passed_line};
ghost use Rattle.passlist_spec.specs.Listed.{place_of, sum, line_standing, counted, line_text, count_text, candidates, counts_text, wrong_in};

use cells::{head_standing, last_mark, number_cells, past_cell, said_at};
use passlist_spec::{Cell, Pass, Said, Standing, Wrong};
use write_items::{write_byte, write_key};

// PASS as a script hands it over, with a line's end.
pub fn read_pass(word: &[u8]) -> Option<Pass>
    ensures { result ≡ pass_in word.now }
{
    let (mark, _) = last_mark(word, 0, b"-\n")?;
    match mark {
        Some(n) => Some(Pass::AtLeast(n)),
        None => Some(Pass::NoTimes),
    }
}

fn by_mark(n: u32, m: u32) -> Standing
    ensures { result ≡ by_mark n m }
{
    if n <= m {
        return Standing::Passed;
    }
    Standing::Below
}

fn done_standing(pass: Pass, mark: Option<u32>) -> Standing
    ensures { result ≡ when_done pass mark }
{
    match pass {
        Pass::AtLeast(n) => match mark {
            Some(m) => by_mark(n, m),
            None => Standing::OtherKind,
        },
        Pass::NoTimes => match mark {
            Some(_) => Standing::OtherKind,
            None => Standing::Passed,
        },
    }
}

fn other_standing(pass: Pass, mark: Option<u32>, standing: Standing) -> Standing
    ensures { result ≡ when_not pass mark standing }
{
    match pass {
        Pass::AtLeast(_) => match mark {
            Some(_) => standing,
            None => Standing::OtherKind,
        },
        Pass::NoTimes => match mark {
            Some(_) => Standing::OtherKind,
            None => standing,
        },
    }
}

fn absent_standing(mark: Option<u32>) -> Standing
    ensures { result ≡ when_absent mark }
{
    match mark {
        Some(_) => Standing::NoRow,
        None => Standing::Absent,
    }
}

fn standing_by(pass: Pass, said: Said, mark: Option<u32>) -> Standing
    ensures { result ≡ standing_by pass said mark }
{
    match said {
        Said::Done => done_standing(pass, mark),
        Said::Unfinished => other_standing(pass, mark, Standing::Unfinished),
        Said::Refused => other_standing(pass, mark, Standing::Refused),
        Said::Fault => other_standing(pass, mark, Standing::Fault),
        Said::Absent => absent_standing(mark),
    }
}

// A row with its line's end: candidate, outcome, six cells that are looked at for their form alone, mark.
fn row_standing(pass: Pass, row: &[u8]) -> Standing
    ensures { result ≡ standing pass row.now }
{
    let Some(a) = past_cell(row, 0, Cell::Name) else {
        return Standing::NoRow;
    };
    let Some((said, b)) = said_at(row, a) else {
        return Standing::NoRow;
    };
    let Some((mark, _)) = number_cells(row, b) else {
        return Standing::NoRow;
    };
    standing_by(pass, said, mark)
}

// A line of the register, after lines with these counts: the head is due first.
pub fn line_standing(pass: Pass, counts: &[usize; 9], line: &[u8]) -> Standing
    ensures { result ≡ line_standing pass counts.now line.now }
{
    if counts[8] == 0 {
        return head_standing(line);
    }
    row_standing(pass, line)
}

// Which count a standing is.
fn place_of(standing: Standing) -> usize
    ensures place { result ≡ place_of standing }
    ensures few { result < 9 }
{
    match standing {
        Standing::Passed => 0,
        Standing::Below => 1,
        Standing::Unfinished => 2,
        Standing::Refused => 3,
        Standing::Fault => 4,
        Standing::Absent => 5,
        Standing::OtherKind => 6,
        Standing::NoRow => 7,
        Standing::Head => 8,
    }
}

fn sum_of(a: usize, b: usize) -> usize
    ensures { result ≡ sum a b }
{
    a.saturating_add(b)
}

// The line counted.
pub fn count_line(pass: Pass, counts: &mut [usize; 9], line: &[u8])
    ensures { counts.new ≡ counted pass counts.old line.now }
{
    let k = place_of(line_standing(pass, counts, line));
    counts[k] = sum_of(counts[k], 1);
}

// How many bytes the name has.
fn name_size(row: &[u8]) -> usize
    ensures within { result ≤ length row.now }
    ensures cell { take result row.now ≡ name_cell row.now }
{
    for (i, b) in row.iter().enumerate() {
        if *b == b',' {
            return i;
        }
    }
    row.len()
}

// `candidate=` and the name as the register shows it.
fn write_passed(t: &mut [u8], at: usize, row: &[u8]) -> usize
    ensures { Written t.old (passed_line row.now) t.new at result }
{
    let n = name_size(row);
    let a = write_key(t, at, b"candidate=");
    let b = write_key(t, a, &row[..n]);
    write_byte(t, b, b'\n')
}

// What the list says of a line: the name where it stands as passed, else nothing.
pub fn write_line(t: &mut [u8], at: usize, pass: Pass, counts: &[usize; 9], line: &[u8]) -> usize
    ensures { Written t.old (line_text pass counts.now line.now) t.new at result }
{
    if place_of(line_standing(pass, counts, line)) == 0 {
        return write_passed(t, at, line);
    }
    at
}

// `KEY=COUNT`.
fn write_count(t: &mut [u8], at: usize, key: &[u8], count: usize) -> usize
    ensures { Written t.old (count_text key.now count) t.new at result }
{
    let a = write_key(t, at, key);
    let b = write_items::write_number(t, a, count);
    write_byte(t, b, b'\n')
}

fn candidates_of(counts: &[usize; 9]) -> usize
    ensures { result ≡ candidates counts.now }
{
    let a = sum_of(counts[0], counts[1]);
    let b = sum_of(a, counts[2]);
    let c = sum_of(b, counts[3]);
    let d = sum_of(c, counts[4]);
    sum_of(d, counts[5])
}

// The list's end: how many rows stand so, and how many there are.
pub fn write_counts(t: &mut [u8], at: usize, counts: &[usize; 9]) -> usize
    ensures { Written t.old (counts_text counts.now) t.new at result }
{
    let a = write_count(t, at, b"passed=", counts[0]);
    let b = write_count(t, a, b"below=", counts[1]);
    let c = write_count(t, b, b"unfinished=", counts[2]);
    let d = write_count(t, c, b"refused=", counts[3]);
    let e = write_count(t, d, b"fault=", counts[4]);
    let f = write_count(t, e, b"absent=", counts[5]);
    write_count(t, f, b"candidates=", candidates_of(counts))
}

// Why there is no list, where there is none.
pub fn wrong_in(counts: &[usize; 9]) -> Option<Wrong>
    ensures { result ≡ wrong_in counts.now }
{
    if counts[7] != 0 {
        return Some(Wrong::Register);
    }
    if counts[8] == 0 {
        return Some(Wrong::Register);
    }
    if counts[6] != 0 {
        return Some(Wrong::Kind);
    }
    None
}
