// Tables and a program as the lines of a form, each written into the part of the buffer that is still free.
ghost use Rattle.std.specs.Prelude.{◌++◌};
ghost use Rattle.write_items.specs.Written.{Written};
ghost use Rattle.words.specs.Words.{tables_in, program_in};
ghost use Rattle.write_texts.specs.Form.{edition_row, form_first, type_lines_text, type_rows_text, form_lines};
ghost use Rattle.write_texts.specs.Layouts.{text_as};

use crate::lines_of::{put_lines, put_rows, put_sheet};
use crate::parts::{Layout, Part};
use crate::rows::count_of;
use read_sheet_lines::Rows;
use words::program::{edition, instructions};
use words::tables::{depth, initial_of, places_of, types};
use words::{ProgramWords, TableWords};
use write_lines::{write_initial, write_one};

// type=, initial=
fn put_type_lines(t: &mut [u8], tables: &TableWords, i: u32) -> usize
    ensures { Written t.old (type_lines_text (tables_in tables.now) i) t.new 0 result }
{
    let places = places_of(tables, i);
    let initial = initial_of(tables, i);
    let used = write_one(t, b"type=", places);
    used + write_initial(&mut t[used..], initial)
}

// tran=, behavior=, port=
fn put_type_rows(t: &mut [u8], tables: &TableWords, i: u32) -> usize
    ensures { Written t.old (type_rows_text (tables_in tables.now) i) t.new 0 result }
{
    let ends = count_of(tables, Rows::Transitions, i);
    let sets = count_of(tables, Rows::Behaviors, i);
    let groups = count_of(tables, Rows::Ports, i);
    let mut used = put_rows(t, tables, Rows::Transitions, i, ends);
    used += put_rows(&mut t[used..], tables, Rows::Behaviors, i, sets);
    used + put_rows(&mut t[used..], tables, Rows::Ports, i, groups)
}

pub(crate) fn put_form_type(t: &mut [u8], tables: &TableWords, i: u32) -> usize
    ensures { Written t.old (type_lines_text (tables_in tables.now) i ++ type_rows_text (tables_in tables.now) i)
        t.new 0 result }
{
    let used = put_type_lines(t, tables, i);
    used + put_type_rows(&mut t[used..], tables, i)
}

// A form for a sheet with tickets opens with its number; no row stands for 1.
fn put_edition_row(t: &mut [u8], edition: u32) -> usize
    ensures { Written t.old (edition_row edition) t.new 0 result }
{
    if edition == 1 {
        return 0;
    }
    write_one(t, b"sheet=", edition)
}

fn put_form_first(t: &mut [u8], edition: u32, depth: u32) -> usize
    ensures { Written t.old (form_first edition depth) t.new 0 result }
{
    let used = put_edition_row(t, edition);
    used + write_one(&mut t[used..], b"depth=", depth)
}

fn put_form(t: &mut [u8], tables: &TableWords, program: &ProgramWords) -> usize
    ensures { Written t.old (form_lines (tables_in tables.now) (program_in program.now)) t.new 0 result }
{
    let deep = depth(tables);
    let count = types(tables);
    let lines = instructions(program);
    let mut used = put_form_first(t, edition(program), deep);
    used += put_lines(
        &mut t[used..],
        Layout::Form,
        Part::Types,
        tables,
        program,
        count,
    );
    used + put_lines(
        &mut t[used..],
        Layout::Form,
        Part::Instructions,
        tables,
        program,
        lines,
    )
}

pub(crate) fn put_text(
    t: &mut [u8],
    layout: Layout,
    tables: &TableWords,
    program: &ProgramWords,
) -> usize
    ensures { Written t.old (text_as layout (tables_in tables.now) (program_in program.now)) t.new 0 result }
{
    match layout {
        Layout::Sheet => put_sheet(t, tables, program),
        Layout::Form => put_form(t, tables, program),
    }
}
