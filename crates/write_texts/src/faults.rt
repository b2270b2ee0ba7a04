// The number of the first line at fault, 0 where there is none. Rows are looked at only where their count is within its limit.
ghost use Rattle.std.specs.Prelude.{◌≡◌};
ghost use Rattle.rules_spec.specs.Refusal.{or_number};
ghost use Rattle.words.specs.Words.{tables_in, program_in, answer_in};
ghost use Rattle.model.specs.View.{type_of};
ghost use Rattle.write_spec.specs.Texts.{type_fault, sheet_fault, answer_fault};
ghost use Rattle.write_texts.specs.Parts.{known_of, kind_fault, head_fault, line_fault, part_fault, count_ok};

use crate::parts::{Part, part_count, part_ok};
use crate::rows::{count_of, instruction_at, row_at, step_at};
use read_sheet_lines::{Known, Rows};
use words::answer::steps;
use words::program::edition;
use words::tables::{depth, initial_of, places_of, transitions_of, types};
use words::{AnswerWords, ProgramWords, TableWords};
use write_lines::faults::{edition_fault, initial_fault, limit_fault, row_fault};
use write_verbs::{do_fault, step_fault};

// The number a, or b where a is none.
fn or_number(a: u8, b: u8) -> u8
    ensures { result ≡ or_number a b }
{
    if a == 0 { b } else { a }
}

fn known_of(tables: &TableWords, i: u32) -> Known
    ensures { result ≡ known_of (type_of (tables_in tables.now) i) }
{
    let places = places_of(tables, i);
    let initial = initial_of(tables, i);
    let transitions = transitions_of(tables, i);
    Known {
        places,
        initial,
        transitions,
    }
}

fn count_ok(rows: Rows, n: u32) -> bool
    ensures { result ≡ count_ok rows n }
{
    match rows {
        Rows::Transitions => n <= 32,
        Rows::Behaviors => n <= 8,
        Rows::Ports => n <= 16,
    }
}

// Of the line of a count and the rows of that kind, up to the first that has one.
fn kind_fault(tables: &TableWords, rows: Rows, i: u32) -> u8
    ensures { result ≡ kind_fault rows (tables_in tables.now) i }
{
    let count = count_of(tables, rows, i);
    let known = known_of(tables, i);
    let limit = limit_fault(count_ok(rows, count));
    if limit != 0 {
        return limit;
    }
    for x in 0..count {
        let n = row_fault(rows, known, row_at(tables, rows, i, x));
        if n != 0 {
            return n;
        }
    }
    0
}

fn head_fault(tables: &TableWords, i: u32) -> u8
    ensures { result ≡ head_fault (tables_in tables.now) i }
{
    let places = places_of(tables, i);
    let initial = initial_fault(places, initial_of(tables, i));
    or_number(limit_fault((1 <= places) & (places <= 16)), initial)
}

fn type_fault(tables: &TableWords, i: u32) -> u8
    ensures { result ≡ type_fault (tables_in tables.now) i }
{
    let head = head_fault(tables, i);
    let ends = kind_fault(tables, Rows::Transitions, i);
    let sets = kind_fault(tables, Rows::Behaviors, i);
    let groups = kind_fault(tables, Rows::Ports, i);
    or_number(head, or_number(ends, or_number(sets, groups)))
}

// Type i, or instruction i.
fn line_fault(part: Part, tables: &TableWords, program: &ProgramWords, i: u32) -> u8
    ensures { result ≡ line_fault part (tables_in tables.now) (program_in program.now) i }
{
    match part {
        Part::Types => type_fault(tables, i),
        Part::Instructions => do_fault(edition(program), types(tables), instruction_at(program, i)),
    }
}

fn part_fault(part: Part, tables: &TableWords, program: &ProgramWords) -> u8
    ensures { result ≡ part_fault part (tables_in tables.now) (program_in program.now) }
{
    let count = part_count(part, tables, program);
    let limit = limit_fault(part_ok(part, count));
    if limit != 0 {
        return limit;
    }
    for i in 0..count {
        let n = line_fault(part, tables, program, i);
        if n != 0 {
            return n;
        }
    }
    0
}

pub(crate) fn sheet_fault(tables: &TableWords, program: &ProgramWords) -> u8
    ensures { result ≡ sheet_fault (tables_in tables.now) (program_in program.now) }
{
    let first = edition_fault(edition(program));
    let deep = limit_fault(depth(tables) <= 8);
    let rows = part_fault(Part::Types, tables, program);
    let lines = part_fault(Part::Instructions, tables, program);
    or_number(first, or_number(deep, or_number(rows, lines)))
}

pub(crate) fn answer_fault(answer: &AnswerWords) -> u8
    ensures { result ≡ answer_fault (answer_in answer.now) }
{
    let count = steps(answer);
    let limit = limit_fault(count <= 1024);
    if limit != 0 {
        return limit;
    }
    for j in 0..count {
        let n = step_fault(step_at(answer, j));
        if n != 0 {
            return n;
        }
    }
    0
}
