// The lines of an answer around the offending one.
ghost use Rattle.std.specs.Prelude.{◌≡◌, ◌+◌, ◌-◌, ltb, length};
ghost use Rattle.write_items.specs.Written.{Written};
ghost use Rattle.page_spec.specs.Line.{line_of, line_count};
ghost use Rattle.page_spec.specs.Piece.{piece_text, page_text, when};
ghost use Rattle.page_spec.specs.Page.{row_begin, left_note, end_note, line_row, line_rows};

use crate::said::{WIDEST, show_line};
use words::less;
use write_items::{write_key, write_number};

fn write_begin(t: &mut [u8], at: usize, hit: bool) -> usize
    ensures { Written t.old (piece_text (row_begin hit)) t.new at result }
{
    if hit {
        return write_key(t, at, b"<tr class=\"at\"><th scope=\"row\">");
    }
    write_key(t, at, b"<tr><th scope=\"row\">")
}

fn write_left(t: &mut [u8], at: usize, left: usize) -> usize
    ensures { Written t.old (page_text (left_note left)) t.new at result }
{
    if 0 < left {
        let a = write_key(t, at, b" <i>and ");
        let b = write_number(t, a, left);
        return write_key(t, b, b" bytes more</i>");
    }
    at
}

fn write_ended(t: &mut [u8], at: usize, ended: bool) -> usize
    ensures { Written t.old (page_text (end_note ended)) t.new at result }
{
    if ended {
        return write_key(t, at, b" <i>the text ends here</i>");
    }
    at
}

fn size_of(answer: &[u8], n: usize) -> usize
    ensures { result ≡ length (line_of answer.now n) }
{
    read_lines::line_size(answer, read_lines::line_start(answer, n))
}

fn line_count(answer: &[u8]) -> usize
    ensures { result ≡ line_count answer.now }
{
    read_lines::line_number(answer, answer.len())
}

// Line n, from 1; the one `hit` is marked.
fn write_line_row(t: &mut [u8], at: usize, answer: &[u8], hit: usize, n: usize) -> usize
    ensures { Written t.old (page_text (line_row answer.now hit n)) t.new at result }
{
    let before = less(n, 1);
    let left = less(size_of(answer, before), WIDEST);
    let count = line_count(answer);
    let a = write_begin(t, at, n == hit);
    let b = write_number(t, a, n);
    let c = write_key(t, b, b"</th><td>");
    let d = show_line(t, c, answer, before);
    let e = write_left(t, d, left);
    let f = write_ended(t, e, n == count);
    write_key(t, f, b"</td></tr>\n")
}

// The line i after the first, where there is one.
fn write_if_there(t: &mut [u8], at: usize, answer: &[u8], hit: usize, i: usize) -> usize
    ensures { Written t.old
        (page_text (when (ltb i (line_count answer.now - (hit - 7))) (line_row answer.now hit (hit - 7 + i + 1)))) t.new at result }
{
    let first = less(hit, 7);
    if i < less(line_count(answer), first) {
        return write_line_row(t, at, answer, hit, first + i + 1);
    }
    at
}

pub(crate) fn write_lines(t: &mut [u8], at: usize, answer: &[u8], hit: usize) -> usize
    ensures { Written t.old (page_text (line_rows answer.now hit)) t.new at result }
{
    let mut p = at;
    for i in 0..10 {
        p = write_if_there(t, p, answer, hit, i);
    }
    p
}
