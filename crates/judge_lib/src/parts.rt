// A line as a part of the text that holds it, and what is printed after a fault: what every judge's doors end in.
// Promised: for any text and any place, the part lies in the text's own memory; every byte of the buffer.
ghost use Rattle.std.specs.Prelude.{◌≡◌, min, length};
ghost use Rattle.judge_spec.specs.Judged.{paper_text};
ghost use Rattle.judge_spec.specs.Lent.{lent};
ghost use Rattle.judge_lib.specs.Part.{Part, holder};
ghost use Rattle.judge_lib.specs.Shown.{Shown};

use judge_spec::{Paper, Place};
use model::{Text, smaller};

// What a text of a paper or its answer holds: nothing where it isn't lent.
pub fn text_of<'a>(paper: Paper<'a>, answer: &'a [u8], text: Text) -> &'a [u8]
    ensures { result.now ≡ paper_text text (lent paper.entry) answer.now }
{
    match text {
        Text::Neither => b"",
        Text::Sheet => paper.sheet,
        Text::Answer => answer,
        Text::Times => b"",
        Text::Start => paper.start.unwrap_or(b""),
    }
}

// So many bytes of a text from a place on, as far as it goes.
pub fn part_of<'a>(s: &'a [u8], start: usize, size: usize) -> &'a [u8]
    ensures { Part s.entry (min start (length s.now)) size result }
{
    let at = smaller(start, s.len());
    let end = at + smaller(size, s.len() - at);
    &s[at..end]
}

// The part of whichever text a place names.
pub fn part_at<'a>(place: Place, sheet: &'a [u8], start: &'a [u8], answer: &'a [u8]) -> &'a [u8]
    ensures { Part (holder place.text sheet.entry start.entry answer.entry)
        (min place.start (length (holder place.text sheet.entry start.entry answer.entry).now)) place.size result }
{
    let text = place.text;
    match text {
        Text::Sheet => part_of(sheet, place.start, place.size),
        Text::Start => part_of(start, place.start, place.size),
        _ => part_of(answer, place.start, place.size),
    }
}

// After 1 to 5 and 50 the three lines, and else the report that the buffer has, so many bytes.
pub fn fault_or_report(
    out: &mut [u8],
    text: Text,
    line: usize,
    refused: u8,
    written: usize,
) -> usize
    ensures { Shown text line refused written out.old result out.new }
{
    match refused {
        1..=5 => write_report::write_fault(out, text, line, refused),
        50 => write_report::write_fault(out, text, line, refused),
        _ => written,
    }
}
