// The markers' page, written: its top, the counts by outcome, each candidate, its foot.
// Promised: every byte of the lent buffer, by the pieces of crates/page_spec.
#![tactic(auto)]

mod lines;
mod reports;
mod said;
pub mod tops;

ghost use Rattle.write_items.specs.Written.{Written};
ghost use Rattle.page_spec.specs.Piece.{page_text};
ghost use Rattle.page_spec.specs.Page.{opening, mark_line, instruction_line, sides, signs, body, candidate, unreadable};

use lines::write_lines;
use page_spec::Found;
use reports::write_rows;
use said::{show_line, write_words};
use sitting_shown::Among;
use words::less;
use write_items::{write_key, write_number};

fn write_opening(t: &mut [u8], at: usize, k: usize, name: &[u8], group: usize) -> usize
    ensures { Written t.old (page_text (opening k name.now group)) t.new at result }
{
    let a = write_key(t, at, b"<article class=\"g");
    let b = write_number(t, a, group);
    let c = write_key(t, b, b"\" aria-labelledby=\"c");
    let d = write_number(t, c, k);
    let e = write_key(t, d, b"\">\n<h2 id=\"c");
    let f = write_number(t, e, k);
    let g = write_key(t, f, b"\">");
    let h = sitting_shown::show(t, g, Among::Markup, name);
    let i = write_key(t, h, b"</h2>\n<p class=\"why\">");
    let j = write_words(t, i, group);
    write_key(t, j, b"</p>\n")
}

fn write_mark(t: &mut [u8], at: usize, mark: Option<usize>) -> usize
    ensures { Written t.old (page_text (mark_line mark)) t.new at result }
{
    let Some(n) = mark else {
        return at;
    };
    let a = write_key(t, at, b"<p>mark ");
    let b = write_number(t, a, n);
    write_key(t, b, b"</p>\n")
}

// The instruction after the first k of n.
fn write_instruction(t: &mut [u8], at: usize, sheet: &[u8], n: usize, k: usize) -> usize
    ensures { Written t.old (page_text (instruction_line sheet.now n k)) t.new at result }
{
    if n <= k {
        return at;
    }
    let line = less(read_lines::line_number(sheet, sheet.len()), n - k);
    let a = write_key(t, at, b"<p>Instructions done: ");
    let b = write_number(t, a, k);
    let c = write_key(t, b, b" of ");
    let d = write_number(t, c, n);
    let e = write_key(t, d, b". The next one, line ");
    let f = write_number(t, e, line);
    let g = write_key(t, f, b" of the sheet: <code>");
    let h = show_line(t, g, sheet, less(line, 1));
    write_key(t, h, b"</code></p>\n")
}

fn write_sides(t: &mut [u8], at: usize, answer: &[u8], line: usize, report: &[u8]) -> usize
    ensures { Written t.old (page_text (sides answer.now line report.now)) t.new at result }
{
    let a = write_key(
        t,
        at,
        b"<div class=\"two\">\n<table class=\"lines\"><caption>The answer, at line ",
    );
    let b = write_number(t, a, line);
    let c = write_key(t, b, b"</caption>\n<tbody>\n");
    let d = write_lines(t, c, answer, line);
    let e = write_key(
        t,
        d,
        b"</tbody></table>\n<table class=\"state\"><caption>The report. instance: id, type, marked, running, ended, queue; ",
    );
    let f = write_key(
        t,
        e,
        b"connection: user, use port, provider, provide port</caption>\n<tbody>\n",
    );
    let g = write_rows(t, f, report);
    write_key(t, g, b"</tbody></table>\n</div>\n")
}

fn write_signs(t: &mut [u8], at: usize) -> usize
    ensures { Written t.old (page_text signs) t.new at result }
{
    let a = write_key(
        t,
        at,
        b"<div class=\"signs\">\n<p><b>Marker 1</b>&#9744; agreed &#9744; queried; name, date, signature:</p>\n",
    );
    write_key(
        t,
        a,
        b"<p><b>Marker 2</b>&#9744; agreed &#9744; queried; name, date, signature:</p>\n</div>\n</article>\n",
    )
}

fn write_body(
    t: &mut [u8],
    at: usize,
    found: Found,
    sheet: &[u8],
    answer: &[u8],
    report: &[u8],
) -> usize
    ensures { Written t.old
        (page_text (body found sheet.now answer.now report.now)) t.new at result }
{
    if found.group == 0 {
        return write_key(t, at, b"</article>\n");
    }
    let a = write_instruction(t, at, sheet, found.program, found.next);
    let b = write_sides(t, a, answer, found.line, report);
    write_signs(t, b)
}

// Candidate k of the page, from the buffer's start.
pub fn write_candidate(
    t: &mut [u8],
    k: usize,
    name: &[u8],
    found: Found,
    sheet: &[u8],
    answer: &[u8],
    report: &[u8],
) -> usize
    ensures { Written t.old
        (page_text (candidate k name.now found sheet.now answer.now report.now)) t.new 0 result }
{
    let a = write_opening(t, 0, k, name, found.group);
    let b = write_mark(t, a, found.mark);
    write_body(t, b, found, sheet, answer, report)
}

// One whose answer can't be read.
pub fn write_unreadable(t: &mut [u8], k: usize, name: &[u8]) -> usize
    ensures { Written t.old (page_text (unreadable k name.now)) t.new 0 result }
{
    let a = write_opening(t, 0, k, name, 40);
    write_signs(t, a)
}
