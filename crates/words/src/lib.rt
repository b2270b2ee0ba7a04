// Tables, program, answer and configuration as words of lent arrays, one array for each: read and written by the names of their fields.
// Promised: each reader answers the field of what the words say by specs/Words, and each writer changes that field alone.
#![tactic(auto)]

pub mod answer;
pub mod begun;
pub mod program;
pub mod state;
pub mod tables;

ghost use Rattle.std.specs.Prelude.{◌≡◌, ◌-◌, ◌<◌};
ghost use Rattle.words.specs.Rows.{word, row_at, puts_in, puts, Laid, Stands};

use model::{at_or, put_at};

pub type TableWords = [u32; 2002];

pub type ProgramWords = [u32; 1282];

pub type BegunWords = [u32; 288];

pub type AnswerWords = [u32; 3073];

pub type StateWords = [u32; 930];

// Rows of words, one after the other: where the first stands, how many there are, and how many words each has.
#[derive(Clone, Copy)]
struct RowsAt {
    at: usize,
    count: usize,
    width: usize,
}

// Where word f of row k stands.
fn place(rows: RowsAt, k: usize, f: usize) -> usize
    requires laid { Laid rows.at rows.count rows.width f }
    requires k_lt_n { k < rows.count }
    ensures { Stands rows.at rows.width k f result }
{
    rows.at + k * rows.width + f
}

// That word, and 0 past the last row.
fn cell(words: &[u32], rows: RowsAt, k: usize, f: usize) -> u32
    requires { Laid rows.at rows.count rows.width f }
    ensures { result ≡ word (row_at words.now rows.at rows.count rows.width k) f }
{
    if k < rows.count {
        at_or(words, place(rows, k, f), 0)
    } else {
        0
    }
}

// The words xs from `at` on.
fn put_words(words: &mut [u32], at: usize, xs: &[u32])
    requires { at < 65536 }
    ensures { words.new ≡ puts words.old at xs.now }
{
    for (k, x) in xs.iter().enumerate() {
        put_at(words, at + k, *x);
    }
}

// The words xs into row k from its word f on: past the last row nothing is put.
fn put_row(words: &mut [u32], rows: RowsAt, k: usize, f: usize, xs: &[u32])
    requires { Laid rows.at rows.count rows.width f }
    ensures { words.new ≡ puts_in words.old rows.at rows.count rows.width k f xs.now }
{
    if k < rows.count {
        put_words(words, place(rows, k, f), xs);
    }
}

// a without b, and 0 where b is more.
pub fn less(a: usize, b: usize) -> usize
    ensures { result ≡ a - b }
{
    a.saturating_sub(b)
}

pub fn fewer(a: u32, b: u32) -> u32
    ensures { result ≡ a - b }
{
    a.saturating_sub(b)
}
