// The lines from the outcome to what is left of the offending line, which both kinds of papers share.
ghost use Rattle.std.specs.Prelude.{◌≡◌};
ghost use Rattle.write_items.specs.Written.{Written};
ghost use Rattle.sitting_spec.specs.End.{first_shown, offending_line, at_text, ended_text, where_text, offending_text};

use judge_lib::parts::part_of;
use judge_spec::Place;
use sitting_shown::Among;
use words::less;
use write_items::{write_byte, write_key, write_number};

// At most so many bytes of a line are shown.
const WIDEST: usize = 200;

// The first bytes of a line.
pub(crate) fn show_first(t: &mut [u8], at: usize, line: &[u8]) -> usize
    ensures { Written t.old (first_shown line.now) t.new at result }
{
    sitting_shown::show(t, at, Among::Line, part_of(line, 0, WIDEST))
}

// Here and below `pointed` stays beside its place: the place is told in a line of its own where no line of the answer is pointed at.
// The line at fault, as a part of the answer; an empty one where none is.
fn offending_line<'a>(pointed: bool, place: Place, answer: &'a [u8]) -> &'a [u8]
    ensures { result.now ≡ offending_line pointed place answer.now }
{
    if pointed {
        return part_of(answer, place.start, place.size);
    }
    part_of(answer, 0, 0)
}

fn write_at(t: &mut [u8], at: usize, pointed: bool, place: Place, answer: &[u8]) -> usize
    ensures { Written t.old (at_text pointed place answer.now) t.new at result }
{
    if pointed {
        return write_number(t, at, read_lines::line_number(answer, place.start));
    }
    write_key(t, at, b"-")
}

fn write_ended(t: &mut [u8], at: usize, pointed: bool, place: Place, answer: &[u8]) -> usize
    ensures { Written t.old (ended_text pointed place answer.now) t.new at result }
{
    if !pointed {
        return write_key(t, at, b"-");
    }
    if place.size < less(answer.len(), place.start) {
        return write_key(t, at, b"lf");
    }
    write_key(t, at, b"end")
}

// at=, place=
pub(crate) fn write_where(
    t: &mut [u8],
    at: usize,
    pointed: bool,
    place: Place,
    answer: &[u8],
) -> usize
    ensures { Written t.old (where_text pointed place answer.now) t.new at result }
{
    let a = write_key(t, at, b"\nat=");
    let b = write_at(t, a, pointed, place, answer);
    let c = write_byte(t, b, b'\n');
    sitting_shown::write_place(t, c, place)
}

// offending=, ended=, left=
pub(crate) fn write_offending(
    t: &mut [u8],
    at: usize,
    pointed: bool,
    place: Place,
    answer: &[u8],
) -> usize
    ensures { Written t.old (offending_text pointed place answer.now) t.new at result }
{
    let line = offending_line(pointed, place, answer);
    let a = write_key(t, at, b"offending=");
    let b = show_first(t, a, line);
    let c = write_key(t, b, b"\nended=");
    let d = write_ended(t, c, pointed, place, answer);
    let e = write_key(t, d, b"\nleft=");
    write_number(t, e, less(line.len(), WIDEST))
}
