// The lines of the two texts as they are written: each at the start of a lent part, cut at its end, and its writer answers the bytes used.
// Promised: every byte of the lent part and the bytes used (`Written`), and of each kind of line the number that its reader gives, for all numbers.
#![tactic(auto)]

pub mod faults;

ghost use Rattle.std.specs.Prelude.{◌++◌};
ghost use Rattle.item_spec.specs.Write.{one_text, two_text, three_text, four_text};
ghost use Rattle.write_items.specs.Written.{Written};
ghost use Rattle.write_spec.specs.Kinds.{set_text, sets_text, initial_text};
ghost use Rattle.read_sheet_lines.specs.declared.Rows.TheVariants.{Ports};
ghost use Rattle.write_lines.specs.Rows.{row_text};
ghost use Rattle.write_lines.specs.Numbers.{numbers_text};

use read_sheet_lines::{Row, Rows};
use write_items::{write_byte, write_key, write_mask, write_number};

// At a position: what follows a key to the line's end.
fn write_last(t: &mut [u8], at: usize, a: u32) -> usize
    ensures { Written t.old (one_text a) t.new at result }
{
    let end = write_number(t, at, a as usize);
    write_byte(t, end, b'\n')
}

fn write_pair(t: &mut [u8], at: usize, a: u32, b: u32) -> usize
    ensures { Written t.old (two_text a b) t.new at result }
{
    let mut end = write_number(t, at, a as usize);
    end = write_byte(t, end, b',');
    write_last(t, end, b)
}

fn write_three(t: &mut [u8], at: usize, a: u32, b: u32, c: u32) -> usize
    ensures { Written t.old (three_text a b c) t.new at result }
{
    let mut end = write_number(t, at, a as usize);
    end = write_byte(t, end, b',');
    write_pair(t, end, b, c)
}

fn write_four(t: &mut [u8], at: usize, a: u32, b: u32, c: u32, d: u32) -> usize
    ensures { Written t.old (four_text a b c d) t.new at result }
{
    let mut end = write_number(t, at, a as usize);
    end = write_byte(t, end, b',');
    write_three(t, end, b, c, d)
}

// A key and so many numbers.
pub fn write_line(t: &mut [u8], key: &[u8], count: u32, a: u32, b: u32, c: u32, d: u32) -> usize
    ensures { Written t.old (key.now ++ numbers_text count a b c d) t.new 0 result }
{
    let at = write_key(t, 0, key);
    match count {
        0 => at,
        1 => write_last(t, at, a),
        2 => write_pair(t, at, a, b),
        3 => write_three(t, at, a, b, c),
        _ => write_four(t, at, a, b, c, d),
    }
}

// A key and one number.
pub fn write_one(t: &mut [u8], key: &[u8], a: u32) -> usize
    ensures { Written t.old (key.now ++ one_text a) t.new 0 result }
{
    write_line(t, key, 1, a, 0, 0, 0)
}

// A key and one list, two.
fn write_set(t: &mut [u8], key: &[u8], m: u32) -> usize
    ensures { Written t.old (key.now ++ set_text m) t.new 0 result }
{
    let mut at = write_key(t, 0, key);
    at = write_mask(t, at, m);
    write_byte(t, at, b'\n')
}

fn write_sets(t: &mut [u8], key: &[u8], m: u32, n: u32) -> usize
    ensures { Written t.old (key.now ++ sets_text m n) t.new 0 result }
{
    let mut at = write_key(t, 0, key);
    at = write_mask(t, at, m);
    at = write_byte(t, at, b',');
    at = write_mask(t, at, n);
    write_byte(t, at, b'\n')
}

// initial=
pub fn write_initial(t: &mut [u8], initial: u32) -> usize
    ensures { Written t.old (initial_text initial) t.new 0 result }
{
    write_set(t, b"initial=", initial)
}

// A code that no line says has no word.
fn write_port(t: &mut [u8], row: Row) -> usize
    ensures { Written t.old (row_text Ports row) t.new 0 result }
{
    let uses = row.uses;
    match uses {
        0 => write_sets(t, b"port=provide,", row.places, row.transitions),
        1 => write_sets(t, b"port=use,", row.places, row.transitions),
        _ => write_key(t, 0, b"port=\n"),
    }
}

// tran=, behavior=, port=
pub fn write_row(t: &mut [u8], rows: Rows, row: Row) -> usize
    ensures { Written t.old (row_text rows row) t.new 0 result }
{
    match rows {
        Rows::Transitions => write_line(t, b"tran=", 2, row.source, row.destination, 0, 0),
        Rows::Behaviors => write_set(t, b"behavior=", row.transitions),
        Rows::Ports => write_port(t, row),
    }
}
