// What stands before and after the candidates.
ghost use Rattle.write_items.specs.Written.{Written};
ghost use Rattle.page_spec.specs.Piece.{page_text, each};
ghost use Rattle.page_spec.specs.Page.{groups, filter_rule, head_begin, heading, top, count_row, counts, foot};
ghost use Rattle.std.specs.Prelude.{get_or};

use crate::said::write_words;
use page_style::{
    write_candidates_look, write_colours, write_parts_look, write_print_look, write_text_look,
};
use sitting_shown::{Among, show};
use write_items::{write_key, write_number};

// How many groups of candidates there are: the refusals up to 38, and done, unfinished, unreadable.
pub const GROUPS: usize = 41;

fn write_rule(t: &mut [u8], at: usize, k: usize) -> usize
    ensures { Written t.old (page_text (filter_rule k)) t.new at result }
{
    let a = write_key(t, at, b"header:has(#g");
    let b = write_number(t, a, k);
    let c = write_key(t, b, b":target)~main article:not(.g");
    let d = write_number(t, c, k);
    write_key(t, d, b"){display:none}\n")
}

fn write_rules(t: &mut [u8], at: usize) -> usize
    ensures { Written t.old (page_text (each filter_rule groups)) t.new at result }
{
    let mut p = at;
    for k in 0..GROUPS {
        p = write_rule(t, p, k);
    }
    p
}

fn write_begin(t: &mut [u8], at: usize, title: &[u8]) -> usize
    ensures { Written t.old (page_text (head_begin title.now)) t.new at result }
{
    let a = write_key(
        t,
        at,
        b"<!DOCTYPE html>\n<html lang=\"en\">\n<head>\n<meta charset=\"utf-8\">\n",
    );
    let b = write_key(
        t,
        a,
        b"<meta name=\"viewport\" content=\"width=device-width, initial-scale=1\">\n",
    );
    let c = write_key(
        t,
        b,
        b"<meta http-equiv=\"Content-Security-Policy\" content=\"default-src 'none'; style-src 'unsafe-inline'\">\n",
    );
    let d = write_key(t, c, b"<title>Markers' page: ");
    let e = show(t, d, Among::Markup, title);
    write_key(t, e, b"</title>\n")
}

fn write_heading(
    t: &mut [u8],
    at: usize,
    title: &[u8],
    sheet: &[u8],
    start: &[u8],
    times: &[u8],
    judge: &[u8],
) -> usize
    ensures { Written t.old
        (page_text (heading title.now sheet.now start.now times.now judge.now)) t.new at result }
{
    let a = show(t, at, Among::Markup, title);
    let b = write_key(t, a, b"</h1>\n<p class=\"seal\">sheet ");
    let c = show(t, b, Among::Markup, sheet);
    let d = write_key(t, c, b"<br>start ");
    let e = show(t, d, Among::Markup, start);
    let f = write_key(t, e, b"<br>times ");
    let g = show(t, f, Among::Markup, times);
    let h = write_key(t, g, b"<br>judge ");
    let i = show(t, h, Among::Markup, judge);
    write_key(t, i, b"</p>\n")
}

// The page's title, the sums of the paper's texts and the judge's version, from the buffer's start.
pub fn write_top(
    t: &mut [u8],
    title: &[u8],
    sheet: &[u8],
    start: &[u8],
    times: &[u8],
    judge: &[u8],
) -> usize
    ensures { Written t.old
        (page_text (top title.now sheet.now start.now times.now judge.now)) t.new 0 result }
{
    let a = write_begin(t, 0, title);
    let b = write_colours(t, a);
    let c = write_text_look(t, b);
    let d = write_rules(t, c);
    let e = write_candidates_look(t, d);
    let f = write_parts_look(t, e);
    let g = write_print_look(t, f);
    write_heading(t, g, title, sheet, start, times, judge)
}

fn write_count(t: &mut [u8], at: usize, k: usize, n: usize) -> usize
    ensures { Written t.old (page_text (count_row k n)) t.new at result }
{
    if n == 0 {
        return at;
    }
    let a = write_key(t, at, b"<tr id=\"g");
    let b = write_number(t, a, k);
    let c = write_key(t, b, b"\"><td class=\"n\">");
    let d = write_number(t, c, n);
    let e = write_key(t, d, b"</td><td><a href=\"#g");
    let f = write_number(t, e, k);
    let g = write_key(t, f, b"\">");
    let h = write_words(t, g, k);
    write_key(t, h, b"</a></td></tr>\n")
}

fn write_count_rows(t: &mut [u8], at: usize, numbers: &[usize; 41]) -> usize
    ensures { Written t.old (page_text (each (λ k. count_row k (get_or numbers.now k 0)) groups)) t.new at result }
{
    let mut p = at;
    for (k, n) in numbers.iter().enumerate() {
        p = write_count(t, p, k, *n);
    }
    p
}

// How many candidates there are, and of each group, from the buffer's start.
pub fn write_counts(t: &mut [u8], total: usize, numbers: &[usize; 41]) -> usize
    ensures { Written t.old (page_text (counts total numbers.now)) t.new 0 result }
{
    let a = write_key(
        t,
        0,
        b"<nav aria-label=\"Candidates by outcome\">\n<table class=\"counts\"><caption>Answers: ",
    );
    let b = write_number(t, a, total);
    let c = write_key(
        t,
        b,
        b"</caption>\n<thead><tr><th scope=\"col\">Answers</th>",
    );
    let d = write_key(
        t,
        c,
        b"<th scope=\"col\">Outcome (follow a link to see these alone)</th></tr></thead>\n<tbody>\n",
    );
    let e = write_count_rows(t, d, numbers);
    write_key(
        t,
        e,
        b"</tbody></table>\n<p class=\"filters\"><a href=\"#all\">Show all candidates</a></p>\n</nav>\n</header>\n<main id=\"all\">\n",
    )
}

// The page's last bytes, from the buffer's start.
pub fn write_foot(t: &mut [u8], total: usize) -> usize
    ensures { Written t.old (page_text (foot total)) t.new 0 result }
{
    let a = write_key(t, 0, b"</main>\n<footer><p>End of the page. Answers: ");
    let b = write_number(t, a, total);
    write_key(t, b, b"</p></footer>\n</body>\n</html>\n")
}
