// The lines in order: each is written into the part of the buffer that is still free, and cut at its end.
ghost use Rattle.item_spec.specs.Write.{in_turn};
ghost use Rattle.write_items.specs.Written.{Written};
ghost use Rattle.words.specs.Words.{tables_in, program_in, answer_in};
ghost use Rattle.write_spec.specs.Kinds.{step_text};
ghost use Rattle.write_spec.specs.Texts.{step_row, type_text, sheet_text, answer_text};
ghost use Rattle.write_texts.specs.Parts.{rows_text, kind_text, kinds_text, head_text, first_text};
ghost use Rattle.write_texts.specs.Layouts.{type_as, line_as, part_text};

use crate::filled::put_form_type;
use crate::parts::{Layout, Part, part_count};
use crate::rows::{count_of, instruction_at, row_at, step_at};
use read_sheet_lines::Rows;
use words::answer::steps;
use words::program::edition;
use words::tables::{depth, initial_of, places_of};
use words::{AnswerWords, ProgramWords, TableWords};
use write_lines::{write_initial, write_one, write_row};
use write_verbs::{write_do, write_step};

// So many rows of type i.
pub(crate) fn put_rows(t: &mut [u8], tables: &TableWords, rows: Rows, i: u32, count: u32) -> usize
    ensures { Written t.old (rows_text rows (tables_in tables.now) i count) t.new 0 result }
{
    let mut used: usize = 0;
    for x in 0..count {
        let row = row_at(tables, rows, i, x);
        used += write_row(&mut t[used..], rows, row);
    }
    used
}

// The rows of a kind after the line of their count.
fn put_kind(t: &mut [u8], key: &[u8], tables: &TableWords, rows: Rows, i: u32) -> usize
    ensures { Written t.old (kind_text key.now rows (tables_in tables.now) i) t.new 0 result }
{
    let count = count_of(tables, rows, i);
    let used = write_one(t, key, count);
    used + put_rows(&mut t[used..], tables, rows, i, count)
}

// type=, places=, initial=
fn put_head(t: &mut [u8], tables: &TableWords, i: u32) -> usize
    ensures { Written t.old (head_text (tables_in tables.now) i) t.new 0 result }
{
    let places = places_of(tables, i);
    let initial = initial_of(tables, i);
    let mut used = write_one(t, b"type=", i);
    used += write_one(&mut t[used..], b"places=", places);
    used + write_initial(&mut t[used..], initial)
}

fn put_kinds(t: &mut [u8], tables: &TableWords, i: u32) -> usize
    ensures { Written t.old (kinds_text (tables_in tables.now) i) t.new 0 result }
{
    let mut used = put_kind(t, b"transitions=", tables, Rows::Transitions, i);
    used += put_kind(&mut t[used..], b"behaviors=", tables, Rows::Behaviors, i);
    used + put_kind(&mut t[used..], b"ports=", tables, Rows::Ports, i)
}

fn put_sheet_type(t: &mut [u8], tables: &TableWords, i: u32) -> usize
    ensures { Written t.old (type_text (tables_in tables.now) i) t.new 0 result }
{
    let used = put_head(t, tables, i);
    used + put_kinds(&mut t[used..], tables, i)
}

fn put_type(t: &mut [u8], layout: Layout, tables: &TableWords, i: u32) -> usize
    ensures { Written t.old (type_as layout (tables_in tables.now) i) t.new 0 result }
{
    match layout {
        Layout::Sheet => put_sheet_type(t, tables, i),
        Layout::Form => put_form_type(t, tables, i),
    }
}

// Type i, or instruction i.
fn put_line(
    t: &mut [u8],
    layout: Layout,
    part: Part,
    tables: &TableWords,
    program: &ProgramWords,
    i: u32,
) -> usize
    ensures { Written t.old (line_as layout part (tables_in tables.now) (program_in program.now) i) t.new 0 result }
{
    match part {
        Part::Types => put_type(t, layout, tables, i),
        Part::Instructions => write_do(t, instruction_at(program, i)),
    }
}

// So many lines of a part.
pub(crate) fn put_lines(
    t: &mut [u8],
    layout: Layout,
    part: Part,
    tables: &TableWords,
    program: &ProgramWords,
    count: u32,
) -> usize
    ensures { Written t.old (in_turn (line_as layout part (tables_in tables.now) (program_in program.now)) count)
        t.new 0 result }
{
    let mut used: usize = 0;
    for i in 0..count {
        used += put_line(&mut t[used..], layout, part, tables, program, i);
    }
    used
}

// A part after the line of its count.
fn put_part(
    t: &mut [u8],
    key: &[u8],
    part: Part,
    tables: &TableWords,
    program: &ProgramWords,
) -> usize
    ensures { Written t.old (part_text key.now part (tables_in tables.now) (program_in program.now))
        t.new 0 result }
{
    let count = part_count(part, tables, program);
    let used = write_one(t, key, count);
    used + put_lines(&mut t[used..], Layout::Sheet, part, tables, program, count)
}

// sheet=, depth=
fn put_first(t: &mut [u8], edition: u32, depth: u32) -> usize
    ensures { Written t.old (first_text edition depth) t.new 0 result }
{
    let used = write_one(t, b"sheet=", edition);
    used + write_one(&mut t[used..], b"depth=", depth)
}

pub(crate) fn put_sheet(t: &mut [u8], tables: &TableWords, program: &ProgramWords) -> usize
    ensures { Written t.old (sheet_text (tables_in tables.now) (program_in program.now)) t.new 0 result }
{
    let mut used = put_first(t, edition(program), depth(tables));
    used += put_part(&mut t[used..], b"types=", Part::Types, tables, program);
    used + put_part(
        &mut t[used..],
        b"program=",
        Part::Instructions,
        tables,
        program,
    )
}

fn put_steps(t: &mut [u8], answer: &AnswerWords, count: u32) -> usize
    ensures { Written t.old (in_turn (λ j. step_text (step_row (answer_in answer.now) j)) count) t.new 0 result }
{
    let mut used: usize = 0;
    for j in 0..count {
        used += write_step(&mut t[used..], step_at(answer, j));
    }
    used
}

pub(crate) fn put_answer(t: &mut [u8], answer: &AnswerWords) -> usize
    ensures { Written t.old (answer_text (answer_in answer.now)) t.new 0 result }
{
    let count = steps(answer);
    let mut used = write_one(t, b"answer=", 1);
    used += write_one(&mut t[used..], b"steps=", count);
    used + put_steps(&mut t[used..], answer, count)
}
