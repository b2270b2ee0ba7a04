// The cells of a register's row, and its head.
// Promised: each answers what its definition in passlist_spec replies to the row from there on.
ghost use Rattle.std.specs.Prelude.{◌≡◌, ◌&&◌, leb, drop};
ghost use Rattle.read_items.specs.Reads.{Reads};
ghost use Rattle.read_items.specs.Says.{due_says};
ghost use Rattle.passlist_spec.specs.Row.{in_cell, past_cell, said_cell, three_cells, mark_or, over, last_mark, number_cells};
ghost use Rattle.passlist_spec.specs.Listed.{head_line, head_standing};
ghost use Rattle.passlist_lib.specs.Says.{said_says, mark_says};

use passlist_spec::{Cell, Said, Standing};
use read_items::{Digits, one_number, past_key};

fn from_to(low: u8, high: u8, c: u8) -> bool
    ensures { result ≡ (leb low c && leb c high) }
{
    if c < low {
        return false;
    }
    c <= high
}

fn may_stand(cell: Cell, c: u8) -> bool
    ensures { result ≡ in_cell cell c }
{
    match cell {
        Cell::Name => from_to(b'!', b'~', c),
        Cell::Number => from_to(b'0', b'9', c),
    }
}

// A cell, empty or not, and its comma.
pub(crate) fn past_cell(row: &[u8], at: usize, cell: Cell) -> Option<usize>
    ensures { Reads row.now (due_says result) (past_cell cell (drop at row.now)) }
{
    for i in at..row.len() {
        let c = row[i];
        if c == b',' {
            return Some(i + 1);
        }
        if !may_stand(cell, c) {
            return None;
        }
    }
    None
}

fn past_three(row: &[u8], at: usize) -> Option<usize>
    ensures { Reads row.now (due_says result) (three_cells (drop at row.now)) }
{
    let a = past_cell(row, at, Cell::Number)?;
    let b = past_cell(row, a, Cell::Number)?;
    past_cell(row, b, Cell::Number)
}

// What the outcome's cell says, and the place past its comma.
pub(crate) fn said_at(row: &[u8], at: usize) -> Option<(Said, usize)>
    ensures { Reads row.now (said_says result) (said_cell (drop at row.now)) }
{
    if let Some(i) = past_key(row, at, b"done,") {
        return Some((Said::Done, i));
    }
    if let Some(i) = past_key(row, at, b"unfinished,") {
        return Some((Said::Unfinished, i));
    }
    if let Some(i) = past_key(row, at, b"refused,") {
        return Some((Said::Refused, i));
    }
    if let Some(i) = past_key(row, at, b"fault,") {
        return Some((Said::Fault, i));
    }
    if let Some(i) = past_key(row, at, b"absent,") {
        return Some((Said::Absent, i));
    }
    None
}

// A mark and the line's end, or the bytes that stand for none: what the last cell says, and the place past it.
fn mark_or(row: &[u8], at: usize, none: &[u8]) -> Option<(Option<u32>, usize)>
    ensures { Reads row.now (mark_says result) (mark_or none.now (drop at row.now)) }
{
    if let Some((m, i)) = one_number(row, at, Digits::Five) {
        if 1000 < m {
            return None;
        }
        return Some((Some(m), i));
    }
    let i = past_key(row, at, none)?;
    Some((None, i))
}

// Nothing more.
fn past_end(row: &[u8], at: usize) -> Option<usize>
    ensures { Reads row.now (due_says result) (over (drop at row.now)) }
{
    if at < row.len() {
        return None;
    }
    Some(row.len())
}

// A mark or the bytes that stand for none, and nothing more.
pub(crate) fn last_mark(row: &[u8], at: usize, none: &[u8]) -> Option<(Option<u32>, usize)>
    ensures { Reads row.now (mark_says result) (last_mark none.now (drop at row.now)) }
{
    let (mark, i) = mark_or(row, at, none)?;
    let next = past_end(row, i)?;
    Some((mark, next))
}

// The seven cells after the outcome.
pub(crate) fn number_cells(row: &[u8], at: usize) -> Option<(Option<u32>, usize)>
    ensures { Reads row.now (mark_says result) (number_cells (drop at row.now)) }
{
    let a = past_three(row, at)?;
    let b = past_three(row, a)?;
    last_mark(row, b, b"\n")
}

// The first line says what the columns are, and nothing else.
pub(crate) fn head_standing(line: &[u8]) -> Standing
    ensures { result ≡ head_standing (head_line line.now) }
{
    let Some(n) = past_key(
        line,
        0,
        b"candidate,outcome,number,port,line,accepted,next,program,mark\n",
    ) else {
        return Standing::NoRow;
    };
    let Some(_) = past_end(line, n) else {
        return Standing::NoRow;
    };
    Standing::Head
}
