// A form as a sheet, and a sheet as a form: the one from standard input; out goes the other, or on standard error the number and the line or row at fault.
// Promised, on all bytes and buffers: `write_draft` answers the number, the row or line and the bytes that `sheet_of_form` and `form_of_sheet` of form_spec
// give of the text, and leaves theirs in the lent buffer, which beside a refusal is as it was found. `run` reads, calls it and writes.
#![tactic(auto)]

ghost use Rattle.std.specs.Prelude.{◌≡◌, ◌≤◌, length};
ghost use Rattle.io.specs.Counts.{IsPrefixLen};
ghost use Rattle.words.specs.Words.{tables_in, program_in};
ghost use Rattle.form_cells.specs.Cells.{lines_of, looked_at};
ghost use Rattle.write_spec.specs.Texts.{sheet_fault};
ghost use Rattle.write_spec.specs.Buffer.{Penned};
ghost use Rattle.form_spec.specs.Said.{lines_said, form_said, sheet_said};
ghost use Rattle.form_lib.specs.Drafts.{fault_at, saying, said_for, text_for, Drafts};

use item_spec::TOO_LONG;
use read_lines::LONGEST;
use std::io::Input;
use std::rt::Env;
use words::{ProgramWords, TableWords};
use write_texts::Written;

const STDOUT_FILENO: i32 = 1;

// What is written: a sheet from a form, or a form from a sheet.
#[derive(Clone, Copy)]
pub enum Draft {
    Sheet,
    Form,
}

// The number of the refusal, or 0, and the number of the line at fault, 0 where it is none's.
#[derive(Clone, Copy)]
struct Fault {
    refused: u8,
    line: usize,
}

// The same, and the bytes written.
#[derive(Clone, Copy)]
pub struct Drafted {
    pub refused: u8,
    pub line: usize,
    pub bytes: usize,
}

// Of a text that is too long no line is at fault.
fn fault_of(text: &[u8], refused: u8, place: usize) -> Fault
    ensures { result ≡ fault_at refused place text.now }
{
    if refused <= TOO_LONG {
        return Fault { refused, line: 0 };
    }
    let line = read_lines::line_number(text, place);
    Fault { refused, line }
}

fn read_lines(text: &[u8], tables: &mut TableWords, program: &mut ProgramWords) -> Fault
    ensures { saying result (tables_in tables.new, program_in program.new) ≡ lines_said (looked_at text.now) }
{
    let n = form_cells::looked_at(text);
    let read = read_sheet::fill_form(&text[..n], tables, program);
    fault_of(&text[..n], read.refused, read.place)
}

// Rows by way of their lines, which have room in the lent text.
fn read_rows(
    rows: &[u8],
    text: &mut [u8],
    tables: &mut TableWords,
    program: &mut ProgramWords,
) -> Fault
    requires { length rows.now ≤ length text.old }
    ensures { saying result (tables_in tables.new, program_in program.new) ≡ lines_said (looked_at (lines_of rows.now)) }
{
    let used = form_cells::write_lines(rows, text);
    read_lines(&text[..used], tables, program)
}

fn read_form(rows: &[u8], tables: &mut TableWords, program: &mut ProgramWords) -> Fault
    ensures { saying result (tables_in tables.new, program_in program.new) ≡ form_said rows.now }
{
    if LONGEST < rows.len() {
        words::tables::clear_tables(tables);
        words::program::clear_program(program);
        return Fault {
            refused: TOO_LONG,
            line: 0,
        };
    }
    let mut text = [0u8; 32769];
    read_rows(rows, &mut text, tables, program)
}

fn read_sheet(text: &[u8], tables: &mut TableWords, program: &mut ProgramWords) -> Fault
    ensures { saying result (tables_in tables.new, program_in program.new) ≡ sheet_said text.now }
{
    let read = read_sheet::fill_sheet(text, tables, program);
    fault_of(text, read.refused, read.place)
}

fn read_for(draft: Draft, text: &[u8], tables: &mut TableWords, program: &mut ProgramWords) -> Fault
    ensures { saying result (tables_in tables.new, program_in program.new) ≡ said_for draft text.now }
{
    match draft {
        Draft::Sheet => read_form(text, tables, program),
        Draft::Form => read_sheet(text, tables, program),
    }
}

fn write_for(draft: Draft, tables: &TableWords, program: &ProgramWords, out: &mut [u8]) -> Written
    ensures { Penned (sheet_fault (tables_in tables.now) (program_in program.now))
        (text_for draft (tables_in tables.now) (program_in program.now)) out.old out.new result.refused result.bytes }
{
    match draft {
        Draft::Sheet => write_texts::write_sheet(tables, program, out),
        Draft::Form => write_texts::write_form(tables, program, out),
    }
}

// The sheet of a form, or the form of a sheet, in the lent buffer.
pub fn write_draft(draft: Draft, text: &[u8], out: &mut [u8]) -> Drafted
    ensures drafts { Drafts draft text.now out.old result out.new }
    ensures counts { IsPrefixLen result.bytes out.new }
{
    let mut tables = [0u32; 2002];
    let mut program = [0u32; 1282];
    let fault = read_for(draft, text, &mut tables, &mut program);
    if fault.refused != 0 {
        return Drafted {
            refused: fault.refused,
            line: fault.line,
            bytes: 0,
        };
    }
    let written = write_for(draft, &tables, &program, out);
    Drafted {
        refused: written.refused,
        line: 0,
        bytes: written.bytes,
    }
}

// By the names of its input and of the text that is refused. A text has room for a byte more than it may have, so that a longer one still gets 1.
// Called with an argument, as bin/ calls the programs, it tells on descriptor 3 how it ended.
pub fn run<R: Input + Env>(rt: &R, draft: Draft, input: &[u8], refused_text: &[u8]) {
    let mut text = [0u8; 32769];
    let mut reader = rt.reader();
    let read = program_io::read_answer(&mut reader, &mut text, input);
    let n = read.unwrap_or(0);
    let mut out = [0u8; 32768];
    let drafted = write_draft(draft, &text[..n], &mut out);
    let used = drafted.bytes;
    let done = io::write_all(STDOUT_FILENO, &out[..used]);
    let refused = drafted.refused != 0;
    if refused {
        program_io::say_fault(refused_text, drafted.line, drafted.refused);
    }
    if done {
        program_io::tell(rt, read.is_none(), refused);
    }
}
