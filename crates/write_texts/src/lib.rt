// Writers of the two texts: tables and a program as a sheet, steps as an answer, from words into a lent buffer.
// Promised, for all words and buffers: the number is `write_number` of writing/specs/Buffer, and every byte of the buffer is said; beside a refusal none changes.
#![tactic(auto)]

mod faults;
mod filled;
mod lines_of;
mod parts;
mod rows;

ghost use Rattle.std.specs.Prelude.{◌≡◌, min, length};
ghost use Rattle.words.specs.Words.{tables_in, program_in, answer_in};
ghost use Rattle.write_spec.specs.Texts.{sheet_text, sheet_fault, answer_text, answer_fault};
ghost use Rattle.write_spec.specs.Buffer.{write_number, Penned};
ghost use Rattle.write_texts.specs.Form.{form_text};
ghost use Rattle.write_texts.specs.Layouts.{text_as};

use faults::{answer_fault, sheet_fault};
use filled::put_text;
use lines_of::put_answer;
use parts::Layout;
use words::{AnswerWords, ProgramWords, TableWords};
use write_room::room_fault;

// The number of the refusal, or 0, and the bytes written.
#[derive(Clone, Copy)]
pub struct Written {
    pub refused: u8,
    pub bytes: usize,
}

// One byte more than a text may have tells one that is too long.
fn text_length(layout: Layout, tables: &TableWords, program: &ProgramWords) -> usize
    ensures { result ≡ min 32769 (length (text_as layout (tables_in tables.now) (program_in program.now))) }
{
    let mut scratch = [0u8; 32769];
    put_text(&mut scratch, layout, tables, program)
}

fn answer_length(answer: &AnswerWords) -> usize
    ensures { result ≡ min 32769 (length (answer_text (answer_in answer.now))) }
{
    let mut scratch = [0u8; 32769];
    put_answer(&mut scratch, answer)
}

// No line is looked at past the first at fault, and nothing is measured before.
fn text_number(layout: Layout, tables: &TableWords, program: &ProgramWords, room: usize) -> u8
    ensures { result ≡ write_number (sheet_fault (tables_in tables.now) (program_in program.now))
        (text_as layout (tables_in tables.now) (program_in program.now)) room }
{
    let fault = sheet_fault(tables, program);
    if fault != 0 {
        return fault;
    }
    room_fault(text_length(layout, tables, program), room)
}

fn answer_number(answer: &AnswerWords, room: usize) -> u8
    ensures { result ≡ write_number (answer_fault (answer_in answer.now)) (answer_text (answer_in answer.now)) room }
{
    let fault = answer_fault(answer);
    if fault != 0 {
        return fault;
    }
    room_fault(answer_length(answer), room)
}

// Nothing is written before all is known to fit.
fn write_text(
    layout: Layout,
    tables: &TableWords,
    program: &ProgramWords,
    out: &mut [u8],
) -> Written
    ensures { Penned (sheet_fault (tables_in tables.now) (program_in program.now))
        (text_as layout (tables_in tables.now) (program_in program.now)) out.old out.new result.refused result.bytes }
{
    let refused = text_number(layout, tables, program, out.len());
    if refused != 0 {
        return Written { refused, bytes: 0 };
    }
    let bytes = put_text(out, layout, tables, program);
    Written { refused: 0, bytes }
}

// The sheet of tables and a program.
pub fn write_sheet(tables: &TableWords, program: &ProgramWords, out: &mut [u8]) -> Written
    ensures { Penned (sheet_fault (tables_in tables.now) (program_in program.now))
        (sheet_text (tables_in tables.now) (program_in program.now)) out.old out.new result.refused result.bytes }
{
    write_text(Layout::Sheet, tables, program, out)
}

// The form of tables and a program, as rows of cells.
pub fn write_form(tables: &TableWords, program: &ProgramWords, out: &mut [u8]) -> Written
    ensures { Penned (sheet_fault (tables_in tables.now) (program_in program.now))
        (form_text (tables_in tables.now) (program_in program.now)) out.old out.new result.refused result.bytes }
{
    let written = write_text(Layout::Form, tables, program, out);
    form_cells::put_cells(out, written.bytes);
    written
}

// The answer of steps.
pub fn write_answer(answer: &AnswerWords, out: &mut [u8]) -> Written
    ensures { Penned (answer_fault (answer_in answer.now)) (answer_text (answer_in answer.now)) out.old out.new
        result.refused result.bytes }
{
    let refused = answer_number(answer, out.len());
    if refused != 0 {
        return Written { refused, bytes: 0 };
    }
    let bytes = put_answer(out, answer);
    Written { refused: 0, bytes }
}
