// What is written of a candidate: the name, what the judge prints, and seven lines for a marker; of an answer, and of a plan on the Aeolus paper.
// Promised: every byte of the lent buffer, on any bytes (`candidate_text`, `unread_text`).
#![tactic(auto)]

mod lines;
pub mod plans;

ghost use Rattle.std.specs.Prelude.{◌≡◌, ◌&&◌, ◌-◌, ltb, drop};
ghost use Rattle.item_spec.specs.Reader.{bytes};
ghost use Rattle.read_spec.specs.Place.{up_to_lf, line_start};
ghost use Rattle.judge_spec.specs.Judged.{printed};
ghost use Rattle.judge_spec.specs.Lent.{lent};
ghost use Rattle.write_items.specs.Written.{Written};
ghost use Rattle.outcome_spec.specs.Outcome.{outcome_text};
ghost use Rattle.sitting_spec.specs.End.{told_text, instruction_text, asked_text};
ghost use Rattle.sitting_spec.specs.Block.{begins, at_fault, asks_more, block_text};
ghost use Rattle.sitting_spec.specs.Candidate.{is_aeolus, either_block, name_text, candidate_text, unread_text};

use item_spec::TOO_LONG;
use judge_lib::parts::part_of;
use judge_spec::{LENT_BYTES, Paper, Place};
use lines::{show_first, write_offending, write_where};
use outcome_spec::Outcome;
use plans::write_plan;
use read_items::past_key;
use words::less;
use write_items::{write_byte, write_key, write_number};

// A name of 4,096 bytes, shown as four each, and its block have room: `longest` of specs/Room, in code.
pub const LONGEST: usize = 26400;

// A text begins with these bytes, from a place on.
fn begins_at(s: &[u8], at: usize, due: &[u8]) -> bool
    ensures { result ≡ begins due.now (drop at s.now) }
{
    past_key(s, at, due).is_some()
}

// A line of the answer is at fault.
fn at_fault(outcome: Outcome, refused: u8) -> bool
    ensures { result ≡ at_fault outcome refused }
{
    match outcome {
        Outcome::Done => false,
        Outcome::Unfinished => false,
        Outcome::Refused => true,
        Outcome::Fault => refused != TOO_LONG,
        Outcome::OfPaper => false,
    }
}

// A `next` stands there, and of so many instructions one is left.
fn next_left(count: usize, k: usize, at: usize, answer: &[u8]) -> bool
    ensures { result ≡ (ltb k count && begins (bytes "step=next\n") (drop at answer.now)) }
{
    if k < count {
        return begins_at(answer, at, b"step=next\n");
    }
    false
}

// A refused `next` with an instruction left.
fn asks_more(outcome: Outcome, count: usize, k: usize, at: usize, answer: &[u8]) -> bool
    ensures { result ≡ asks_more outcome count k at answer.now }
{
    match outcome {
        Outcome::Done => false,
        Outcome::Unfinished => false,
        Outcome::Refused => next_left(count, k, at, answer),
        Outcome::Fault => false,
        Outcome::OfPaper => false,
    }
}

// Line n of the sheet, from 1, as a part of it.
fn line_of<'a>(sheet: &'a [u8], n: usize) -> &'a [u8]
    ensures { result.now ≡ up_to_lf (drop (line_start (n - 1) sheet.now) sheet.now) }
{
    let start = read_lines::line_start(sheet, less(n, 1));
    let size = read_lines::line_size(sheet, start);
    part_of(sheet, start, size)
}

// Instruction k, on line n of the sheet.
fn write_instruction(t: &mut [u8], at: usize, sheet: &[u8], k: usize, n: usize) -> usize
    ensures { Written t.old (instruction_text sheet.now k n) t.new at result }
{
    let line = line_of(sheet, n);
    let a = write_number(t, at, k);
    let b = write_byte(t, a, b',');
    let c = write_number(t, b, n);
    let d = write_byte(t, c, b',');
    show_first(t, d, line)
}

// A flag and no Option: the sheet is lent whether or not the line is asked for.
// The last of the seven lines: that instruction, where it is asked for.
fn write_asked(t: &mut [u8], at: usize, asked: bool, sheet: &[u8], k: usize, n: usize) -> usize
    ensures { Written t.old (asked_text asked sheet.now k n) t.new at result }
{
    if !asked {
        return write_key(t, at, b"\ninstruction=-\n");
    }
    let a = write_key(t, at, b"\ninstruction=");
    let b = write_instruction(t, a, sheet, k, n);
    write_byte(t, b, b'\n')
}

// All but the last of the seven lines.
fn write_told(
    t: &mut [u8],
    at: usize,
    outcome: Outcome,
    refused: u8,
    place: Place,
    answer: &[u8],
) -> usize
    ensures { Written t.old (told_text (outcome_text outcome) (at_fault outcome refused) place answer.now) t.new at result }
{
    let pointed = at_fault(outcome, refused);
    let a = write_key(t, at, b"outcome=");
    let b = outcome_lib::write_outcome(t, a, outcome);
    let c = write_where(t, b, pointed, place, answer);
    write_offending(t, c, pointed, place, answer)
}

// What the judge prints.
fn write_print(t: &mut [u8], at: usize, paper: Paper<'_>, answer: &[u8]) -> usize
    ensures { Written t.old (printed (lent paper.entry) answer.now) t.new at result }
{
    let mut report = [0u8; LENT_BYTES];
    let used = judge_lib::print(paper, answer, &mut report);
    write_key(t, at, &report[..used])
}

// The block of an answer, at a position of a lent buffer.
pub fn write_block(t: &mut [u8], at: usize, paper: Paper<'_>, answer: &[u8]) -> usize
    ensures { Written t.old (block_text (lent paper.entry) answer.now) t.new at result }
{
    let mut report = [0u8; LENT_BYTES];
    let judged = judge_lib::judge_and_place(paper, answer, &mut report);
    let verdict = judged.verdict;
    let place = judged.place;
    let next = verdict.next;
    let told = outcome_lib::outcome(paper, answer);
    let outcome = told.outcome;
    let count = told.program as usize;
    let sheet = paper.sheet;
    let line = less(
        read_lines::line_number(sheet, sheet.len()),
        less(count, next),
    );
    let asked = asks_more(outcome, count, next, place.start, answer);
    let a = write_print(t, at, paper, answer);
    let b = write_told(t, a, outcome, verdict.refused, place, answer);
    write_asked(t, b, asked, sheet, next, line)
}

// A sheet of the Aeolus paper, whose answers are plans.
pub fn is_aeolus(sheet: &[u8]) -> bool
    ensures { result ≡ is_aeolus sheet.now }
{
    begins_at(sheet, 0, b"aeolus=")
}

// The block of an answer or of a plan.
fn write_either(t: &mut [u8], at: usize, paper: Paper<'_>, answer: &[u8]) -> usize
    ensures { Written t.old (either_block (lent paper.entry) answer.now) t.new at result }
{
    if is_aeolus(paper.sheet) {
        return write_plan(t, at, paper.sheet, answer);
    }
    write_block(t, at, paper, answer)
}

fn write_name(t: &mut [u8], name: &[u8]) -> usize
    ensures { Written t.old (name_text name.now) t.new 0 result }
{
    let a = write_key(t, 0, b"candidate=");
    let b = sitting_shown::show_cell(t, a, name);
    write_byte(t, b, b'\n')
}

// The name and the block, from the start of a lent buffer.
pub fn write_candidate(t: &mut [u8], name: &[u8], paper: Paper<'_>, answer: &[u8]) -> usize
    ensures { Written t.old (candidate_text name.now (lent paper.entry) answer.now) t.new 0 result }
{
    let at = write_name(t, name);
    write_either(t, at, paper, answer)
}

// The same of an answer that can't be read.
pub fn write_unread(t: &mut [u8], name: &[u8]) -> usize
    ensures { Written t.old (unread_text name.now) t.new 0 result }
{
    let at = write_name(t, name);
    write_key(t, at, b"unreadable=1\n")
}
