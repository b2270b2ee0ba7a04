// What becomes of a text at fault and of a walk: the verdict, and the place of the line at fault.
// Promised: for any text, number, place and walk, reachable or not, every field is what crates/judge_spec/specs says.
#![tactic(auto)]

ghost use Rattle.std.specs.Prelude.{◌≡◌, ◌+◌};
ghost use Rattle.model.specs.declared.Configuration.{Configuration};
ghost use Rattle.read_spec.specs.Place.{line_start};
ghost use Rattle.judge_spec.specs.Judged.{fault_line, after_fault, empty_at, line_at, fault_place, step_place, no_room, walk_verdict};
ghost use Rattle.judge_verdicts.specs.Fits.{place_for, came_to};

use item_spec::BUFFER_SHORT;
use judge_spec::{Place, Verdict};
use model::{Concerned, Text};

// "`line=` (from 1; .. 0 for number 1)"
fn fault_line(s: &[u8], n: u8, at: usize) -> usize
    ensures { result ≡ fault_line n at s.now }
{
    match n {
        1 => 0,
        50 => 0,
        _ => read_lines::line_number(s, at),
    }
}

// "After 1 to 6 the counts in the result are 0".
pub fn after_fault(x: Text, s: &[u8], n: u8, at: usize) -> Verdict
    ensures { result ≡ (after_fault x n at s.now).verdict }
{
    let line = fault_line(s, n, at);
    Verdict {
        refused: n,
        port: Concerned::NoPort,
        accepted: 0,
        next: 0,
        written: 0,
        text: x,
        line,
    }
}

// "a report that doesn't fit gives 6 in place of the steps' number"
pub fn no_room() -> Verdict
    ensures { result ≡ no_room.verdict }
{
    Verdict {
        refused: BUFFER_SHORT,
        port: Concerned::NoPort,
        accepted: 0,
        next: 0,
        written: 0,
        text: Text::Neither,
        line: 0,
    }
}

// What a walk comes to, that did so many instructions and whose report has so many bytes, with the use port concerned.
pub fn walk_verdict(
    refused: u8,
    port: Concerned,
    accepted: usize,
    next: usize,
    written: usize,
) -> Verdict
    ensures { (c : Configuration) → next ≡ c.done → result ≡ walk_verdict (came_to refused port accepted c) written }
{
    Verdict {
        refused,
        port,
        accepted,
        next,
        written,
        text: Text::Neither,
        line: 0,
    }
}

fn empty_at(x: Text, at: usize) -> Place
    ensures { result ≡ empty_at x at }
{
    Place {
        text: x,
        start: at,
        size: 0,
    }
}

fn line_at(x: Text, at: usize, s: &[u8]) -> Place
    ensures { result ≡ line_at x at s.now }
{
    let size = read_lines::line_size(s, at);
    Place {
        text: x,
        start: at,
        size,
    }
}

// "for 2 to 5, the line at fault, up to its LF or the text's end ..; for 1, the empty start of that text"
pub fn fault_place(x: Text, s: &[u8], n: u8, at: usize) -> Place
    ensures { result ≡ fault_place x n at s.now }
{
    match n {
        1 => empty_at(x, 0),
        50 => empty_at(x, 0),
        _ => line_at(x, at, s),
    }
}

// Where step n of an answer has its line: the answer's third line and on.
fn step_start(answer: &[u8], n: usize) -> usize
    ensures { result ≡ line_start (2 + n) answer.now }
{
    let first = read_lines::line_start(answer, 2);
    first + read_lines::line_start(&answer[first..], n)
}

// "for a step, its line; .. with no refusal, the empty end of the answer"
pub fn step_place(refused: u8, accepted: usize, answer: &[u8]) -> Place
    ensures { result ≡ step_place refused accepted answer.now }
{
    match refused {
        0 => empty_at(Text::Answer, answer.len()),
        _ => {
            let start = step_start(answer, accepted);
            line_at(Text::Answer, start, answer)
        }
    }
}

// The refusal is there whether or not the report fits, so `fits` is no Option of it.
// Whether the report fits is known; "for 6, the empty start of the answer".
pub fn walk_place(refused: u8, accepted: usize, fits: bool, answer: &[u8]) -> Place
    ensures { result ≡ place_for fits refused accepted answer.now }
{
    if fits {
        step_place(refused, accepted, answer)
    } else {
        empty_at(Text::Answer, 0)
    }
}
