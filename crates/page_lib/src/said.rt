// Lines of a text by their first bytes, and what became of an answer, in words.
ghost use Rattle.std.specs.Prelude.{◌≡◌};
ghost use Rattle.write_items.specs.Written.{Written};
ghost use Rattle.sitting_shown.specs.declared.Among.TheVariants as among;
ghost use Rattle.sitting_shown.specs.Shown.{shown};
ghost use Rattle.page_spec.specs.Line.{first_bytes};
ghost use Rattle.page_spec.specs.Piece.{words, piece_text};

use model::smaller;
use sitting_shown::Among;
use write_items::write_key;

// At most so many bytes of a line are shown.
pub(crate) const WIDEST: usize = 120;

// Line n of a text, from 0.
fn line_at<'a>(text: &'a [u8], n: usize) -> &'a [u8]
    ensures { result.now ≡ first_bytes text.now n }
{
    let start = read_lines::line_start(text, n);
    let size = smaller(WIDEST, read_lines::line_size(text, start));
    judge_lib::parts::part_of(text, start, size)
}

// As it is: for a text of ours.
fn write_line(t: &mut [u8], at: usize, text: &[u8], n: usize) -> usize
    ensures { Written t.old (first_bytes text.now n) t.new at result }
{
    let line = line_at(text, n);
    write_key(t, at, line)
}

// As bytes of others are shown.
pub(crate) fn show_line(t: &mut [u8], at: usize, text: &[u8], n: usize) -> usize
    ensures { Written t.old (shown among.Markup (first_bytes text.now n)) t.new at result }
{
    let line = line_at(text, n);
    sitting_shown::show(t, at, Among::Markup, line)
}

pub(crate) fn write_words(t: &mut [u8], at: usize, group: usize) -> usize
    ensures { Written t.old (piece_text (words group)) t.new at result }
{
    write_line(
        t,
        at,
        b"done: every step is allowed, every instruction done, every queue empty\nfault 1: the text is too long\nfault 2: wrong key, order, form, or text ended early\nfault 3: a number beyond its limit\n-\nfault 5: bytes after the last line due\n-\n-\n-\n-\nrefused 10: next with no instruction left\nrefused 11: id absent\nrefused 12: id present at add\nrefused 13: no such behavior or port, or port of the wrong kind\nrefused 14: both ends are one instance\nrefused 15: use port already connected\nrefused 16: 64 connections stand\nrefused 17: no such connection\nrefused 18: del of a connected instance\nrefused 19: ticket not above the last\nrefused 20: queue full\nrefused 21: queue not empty at wait or del\nrefused 22: use port active at dcon\nrefused 23: ticket still queued\nrefused 24: ticket never pushed\n-\n-\n-\n-\n-\nrefused 30: queue empty at a move\nrefused 31: not marked, not running, not all ended\nrefused 32: no transition of the current behavior leaves p, or leads to p\nrefused 33: a leaving transition held, or the place already marked\nrefused 34: the provider of a use port inactive\nrefused 35: the provider is refusing\nrefused 36: the service is in use\nrefused 37: finish too early\nrefused 38: unconnected use port\nunfinished: every step is allowed, but the program or a queue is not at its end\nunreadable: no plain file, or shut\n",
        group,
    )
}
