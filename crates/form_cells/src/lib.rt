// Rows of cells, as a spreadsheet saves them, and the lines that they stand for.
// Promised: every byte of the lent buffer, for all bytes: `lines_of` and `cells_of` of specs/Cells; of `looked_at` the count, by `looked_at`.
#![tactic(auto)]

ghost use Rattle.std.specs.Prelude.{◌≡◌, cond, ◌||◌, eqb, [], ◌∷◌, ◌++◌, ◌≤◌, ◌<◌, length, take, drop, replicate};
ghost use Rattle.std.specs.List.{ends_with};
ghost use Rattle.io.specs.Counts.{IsPrefixLen};
ghost use Rattle.item_spec.specs.Reader.{bytes};
ghost use Rattle.write_items.specs.Written.{Written};
ghost use Rattle.form_cells.specs.Cells.{gap, stands, first_after, commas_after, unmarked, letter, separator_of, note_after, comma_for};
ghost use Rattle.form_cells.specs.Cells.{lines_of, looked_at, cell_byte, cells_of};

use write_items::write_byte;

// How far a row is: whether no comma was written in it yet, how many are not written yet, and where the next byte goes.
// A state, of which no field depends on another.
#[derive(Clone, Copy)]
struct Row {
    first: bool,
    commas: usize,
    at: usize,
}

fn write_commas(out: &mut [u8], at: usize, count: usize) -> usize
    ensures { Written out.old (replicate count 44) out.new at result }
{
    let mut end = at;
    for _ in 0..count {
        end = write_byte(out, end, b',');
    }
    end
}

fn mark(first: bool) -> u8
    ensures { result ≡ cond first 61 44 }
{
    if first { b'=' } else { b',' }
}

// The commas before a value, the first of a row as `=`.
fn write_gap(out: &mut [u8], row: Row) -> usize
    ensures { Written out.old (gap row.first row.commas) out.new row.at result }
{
    let count = row.commas;
    if count == 0 {
        return row.at;
    }
    let at = write_byte(out, row.at, mark(row.first));
    write_commas(out, at, count - 1)
}

// A value's byte.
fn write_value(out: &mut [u8], row: Row, c: u8) -> usize
    ensures { Written out.old (gap row.first row.commas ++ (c ∷ [])) out.new row.at result }
{
    let at = write_gap(out, row);
    write_byte(out, at, c)
}

// One byte of a row.
fn take_byte(out: &mut [u8], row: Row, c: u8) -> Row
    requires { row.commas < 18446744073709551615 }
    ensures bytes { Written out.old (stands row.first row.commas c) out.new row.at result.at }
    ensures first { result.first ≡ first_after row.first row.commas c }
    ensures commas { result.commas ≡ commas_after row.commas c }
{
    if c == b'\n' {
        let at = write_byte(out, row.at, b'\n');
        return Row {
            first: true,
            commas: 0,
            at,
        };
    }
    if c == b',' {
        let commas = row.commas + 1;
        return Row {
            first: row.first,
            commas,
            at: row.at,
        };
    }
    if c == b'\r' {
        return row;
    }
    let at = write_value(out, row, c);
    let first = row.first & (row.commas == 0);
    Row {
        first,
        commas: 0,
        at,
    }
}

// Past the mark that some spreadsheets put before the first row.
fn past_mark(rows: &[u8]) -> usize
    ensures within { result ≤ length rows.now }
    ensures rest { drop result rows.now ≡ unmarked rows.now }
{
    read_items::past_key(rows, 0, b"\xef\xbb\xbf").unwrap_or(0)
}

#[tactic(auto, unfolding(crate::specs::Cells::letter))]
fn is_letter(c: u8) -> bool
    ensures { result ≡ letter c }
{
    c.is_ascii_lowercase()
}

// What separates cells where this byte stands after the first key.
fn separator_at(c: u8) -> u8
    ensures { result ≡ cond (eqb c 59 || eqb c 9) c 44 }
{
    if matches!(c, b';' | b'\t') { c } else { b',' }
}

fn separator(rows: &[u8]) -> u8
    ensures { result ≡ separator_of rows.now }
{
    for c in rows {
        if !is_letter(*c) {
            return separator_at(*c);
        }
    }
    b','
}

fn note_after(noted: bool, c: u8) -> bool
    ensures { result ≡ note_after noted c }
{
    if c == b'\n' {
        return false;
    }
    let sign = c == b'#';
    if sign {
        return true;
    }
    noted
}

fn comma_for(separator: u8, c: u8) -> u8
    ensures { result ≡ comma_for separator c }
{
    if c == separator {
        return b',';
    }
    if c == b',' {
        return separator;
    }
    c
}

// One byte of a row, or of a note.
fn take_cell(out: &mut [u8], row: Row, noted: bool, c: u8) -> Row
    requires { row.commas < 18446744073709551615 }
    ensures bytes { Written out.old (cond noted [] (stands row.first row.commas c)) out.new row.at result.at }
    ensures first { result.first ≡ cond noted row.first (first_after row.first row.commas c) }
    ensures commas { result.commas ≡ cond noted row.commas (commas_after row.commas c) }
{
    if noted {
        return row;
    }
    take_byte(out, row, c)
}

// The lines that rows of cells stand for, cut at the buffer's end, and the bytes used.
pub fn write_lines(rows: &[u8], out: &mut [u8]) -> usize
    ensures bytes { Written out.old (lines_of rows.now) out.new 0 result }
    ensures counts { IsPrefixLen result out.new }
{
    let cells = &rows[past_mark(rows)..];
    let separator = separator(cells);
    let mut row = Row {
        first: true,
        commas: 0,
        at: 0,
    };
    let mut noted = false;
    for c in cells {
        noted = note_after(noted, *c);
        row = take_cell(out, row, noted, comma_for(separator, *c));
    }
    row.at
}

// Whether an empty line comes last.
fn ends_empty(lines: &[u8]) -> bool
    ensures { result ≡ ends_with eqb lines.now (bytes "\n\n") }
{
    lines.ends_with(b"\n\n")
}

// How many bytes of lines are looked at: all but empty lines at the end.
pub fn looked_at(lines: &[u8]) -> usize
    ensures { result ≡ length (looked_at lines.now) }
{
    let mut looked = lines;
    while ends_empty(looked) {
        looked = &looked[..looked.len() - 1];
    }
    looked.len()
}

fn cell_byte(c: u8) -> u8
    ensures { result ≡ cell_byte c }
{
    if c == b'=' { b',' } else { c }
}

// The first bytes of a text, which are lines, as rows of cells.
pub fn put_cells(text: &mut [u8], count: usize)
    ensures { text.new ≡ cells_of (take count text.old) ++ drop count text.old }
{
    let end = count.min(text.len());
    for c in &mut text[..end] {
        *c = cell_byte(*c);
    }
}
