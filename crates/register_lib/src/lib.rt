// The register's rows: what a row says of an answer on a paper, and its bytes.
// Promised: every field of a row (`row_of`: the judge's numbers, the timing's mark), and every byte of the lent buffer (`row_text`).
#![tactic(auto)]

ghost use Rattle.std.specs.Prelude.{◌≡◌, cond, ◌++◌};
ghost use Rattle.std.specs.Option.{is_some};
ghost use Rattle.std.specs.declared.option.Option.TheVariants.{Some, None};
ghost use Rattle.item_spec.specs.Reader.{bytes};
ghost use Rattle.judge_spec.specs.Judged.{lent_bytes};
ghost use Rattle.judge_spec.specs.Lent.{lent, text_lent};
ghost use Rattle.timing_spec.specs.Timed.{timed};
ghost use Rattle.write_items.specs.Written.{Written};
ghost use Rattle.register_spec.specs.Row.{line_of, row_of};
ghost use Rattle.register_spec.specs.Text.{head_text, port_cell, pointed, walked, number_cell, row_text, unreadable_text};

use judge_spec::{LENT_BYTES, Paper, Place, Verdict};
use model::Concerned;
use outcome_spec::Outcome;
use register_spec::Row;
use write_items::{write_byte, write_key, write_number};

// The line at fault: of a step the one at the judge's place.
fn line_of(outcome: Outcome, answer: &[u8], verdict: Verdict, place: Place) -> usize
    ensures { result ≡ line_of outcome answer.now verdict place }
{
    match outcome {
        Outcome::Done => verdict.line,
        Outcome::Unfinished => verdict.line,
        Outcome::Refused => read_lines::line_number(answer, place.start),
        Outcome::Fault => verdict.line,
        Outcome::OfPaper => verdict.line,
    }
}

fn mark_of(paper: Paper<'_>, times: Option<&[u8]>, answer: &[u8]) -> Option<usize>
    ensures { result ≡ cond (is_some times.entry) (Some (timed (lent paper.entry) answer.now (text_lent times.entry) lent_bytes).mark) None }
{
    let times = times?;
    let mut report = [0u8; LENT_BYTES];
    Some(timing_lib::timed(paper, answer, times, &mut report).mark)
}

// What the register says of an answer, with its mark where the paper has times.
pub fn row_of(paper: Paper<'_>, times: Option<&[u8]>, answer: &[u8]) -> Row
    ensures { result ≡ row_of (lent paper.entry) (is_some times.entry) (text_lent times.entry) answer.now }
{
    let mut report = [0u8; LENT_BYTES];
    let judged = judge_lib::judge_and_place(paper, answer, &mut report);
    let told = outcome_lib::outcome(paper, answer);
    let mark = mark_of(paper, times, answer);
    let outcome = told.outcome;
    let verdict = judged.verdict;
    let place = judged.place;
    let port = verdict.port;
    let line = line_of(outcome, answer, verdict, place);
    Row {
        outcome,
        number: verdict.refused,
        port,
        line,
        accepted: verdict.accepted,
        next: verdict.next,
        program: told.program as usize,
        mark,
    }
}

fn is_pointed(outcome: Outcome) -> bool
    ensures { result ≡ pointed outcome }
{
    match outcome {
        Outcome::Done => false,
        Outcome::Unfinished => false,
        Outcome::Refused => true,
        Outcome::Fault => true,
        Outcome::OfPaper => true,
    }
}

fn is_walked(outcome: Outcome) -> bool
    ensures { result ≡ walked outcome }
{
    match outcome {
        Outcome::Done => true,
        Outcome::Unfinished => true,
        Outcome::Refused => true,
        Outcome::Fault => false,
        Outcome::OfPaper => false,
    }
}

fn write_cell(t: &mut [u8], at: usize, number: Option<usize>) -> usize
    ensures { Written t.old (bytes "," ++ number_cell number) t.new at result }
{
    let p = write_byte(t, at, b',');
    match number {
        Some(n) => write_number(t, p, n),
        None => p,
    }
}

fn write_port(t: &mut [u8], at: usize, port: Concerned) -> usize
    ensures { Written t.old (bytes "," ++ port_cell port) t.new at result }
{
    match port {
        Concerned::NoPort => write_byte(t, at, b','),
        Concerned::UsePort(q) => write_cell(t, at, Some(q as usize)),
    }
}

// A candidate's row.
pub fn write_row(t: &mut [u8], at: usize, name: &[u8], row: Row) -> usize
    ensures { Written t.old (row_text name.now row) t.new at result }
{
    let outcome = row.outcome;
    let port = row.port;
    let a = sitting_shown::show_cell(t, at, name);
    let b = write_byte(t, a, b',');
    let c = outcome_lib::write_outcome(t, b, outcome);
    let d = write_cell(t, c, Some(row.number as usize));
    let e = write_port(t, d, port);
    let f = write_cell(t, e, is_pointed(outcome).then_some(row.line));
    let went = is_walked(outcome);
    let g = write_cell(t, f, went.then_some(row.accepted));
    let h = write_cell(t, g, went.then_some(row.next));
    let i = write_cell(t, h, Some(row.program));
    let j = write_cell(t, i, row.mark);
    write_byte(t, j, b'\n')
}

// The row of an answer that can't be read.
pub fn write_unreadable(t: &mut [u8], at: usize, name: &[u8]) -> usize
    ensures { Written t.old (unreadable_text name.now) t.new at result }
{
    let a = sitting_shown::show_cell(t, at, name);
    write_key(t, a, b",unreadable,,,,,,,\n")
}

// What each column is.
pub fn write_head(t: &mut [u8], at: usize) -> usize
    ensures { Written t.old head_text t.new at result }
{
    write_key(
        t,
        at,
        b"candidate,outcome,number,port,line,accepted,next,program,mark\n",
    )
}
