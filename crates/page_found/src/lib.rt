// What a page says of an answer, by its row of the register.
// Promised: every field (`found_of`).
#![tactic(auto)]

ghost use Rattle.std.specs.Prelude.{◌≡◌};
ghost use Rattle.page_found.specs.Found.{group_of, looked_at, next_of, found_of};

use outcome_spec::Outcome;
use page_spec::Found;
use register_spec::Row;

fn group_of(outcome: Outcome, number: u8) -> usize
    ensures { result ≡ group_of outcome number }
{
    match outcome {
        Outcome::Done => 0,
        Outcome::Unfinished => 39,
        Outcome::Refused => number as usize,
        Outcome::Fault => number as usize,
        Outcome::OfPaper => number as usize,
    }
}

fn looked_at(outcome: Outcome, line: usize, answer: &[u8]) -> usize
    ensures { result ≡ looked_at outcome line answer.now }
{
    match outcome {
        Outcome::Done => read_lines::line_number(answer, answer.len()),
        Outcome::Unfinished => read_lines::line_number(answer, answer.len()),
        Outcome::Refused => line,
        Outcome::Fault => line,
        Outcome::OfPaper => line,
    }
}

fn next_of(outcome: Outcome, next: usize, program: usize) -> usize
    ensures { result ≡ next_of outcome next program }
{
    match outcome {
        Outcome::Done => next,
        Outcome::Unfinished => next,
        Outcome::Refused => next,
        Outcome::Fault => program,
        Outcome::OfPaper => program,
    }
}

pub fn found_of(row: Row, answer: &[u8]) -> Found
    ensures { result ≡ found_of row answer.now }
{
    let outcome = row.outcome;
    Found {
        group: group_of(outcome, row.number),
        line: looked_at(outcome, row.line, answer),
        next: next_of(outcome, row.next, row.program),
        program: row.program,
        mark: row.mark,
    }
}
