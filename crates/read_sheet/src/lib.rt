// A sheet read whole into lent words: its types with their rows, then its program, each line from the part of the text that starts with it.
// Promised: for every text `fill_sheet` answers the one number and place that `sheet_read` gives of it, and the words say the tables and the
// program that it gives, whatever they held before.
#![tactic(auto)]

mod filled;
mod programs;
mod types;

ghost use Rattle.std.specs.Prelude.{◌≡◌};
ghost use Rattle.model.specs.Empty.{no_tables, no_program};
ghost use Rattle.read_spec.specs.Texts.{sheet};
ghost use Rattle.read_lines.specs.Runs.{RunsTo, came};
ghost use Rattle.read_chain.specs.Chain.{shortly};
ghost use Rattle.read_chain.specs.Whole.{beside};
ghost use Rattle.words.specs.Words.{tables_in, program_in};
ghost use Rattle.read_sheet.specs.Sheet.{sheet_read, handed_out};
ghost use Rattle.read_sheet.specs.Form.{form_read};

use filled::{read_rows, read_types};
use programs::read_instructions;
use read_chain::Place;
use read_lines::{Limit, LineFault};
use words::{ProgramWords, TableWords};

// The lines of a sheet, up to the text's end, into words that say none.
fn read_lines(
    text: &[u8],
    tables: &mut TableWords,
    program: &mut ProgramWords,
) -> Result<usize, LineFault>
    requires tables_value { tables_in tables.old ≡ no_tables }
    requires program_value { program_in program.old ≡ no_program }
    ensures { RunsTo text.now (came result (tables_in tables.new, program_in program.new))
        (shortly sheet text.now) }
{
    let (edition, at) = read_chain::then_edition(text, read_chain::length_run(text))?;
    let (depth, at) = read_chain::count_run(text, at, b"depth=", Limit::Depth)?;
    let (types, at) = read_chain::count_run(text, at, b"types=", Limit::Types)?;
    words::tables::put_head(tables, depth, types);
    let at = read_types(text, at, types, false, tables)?;
    let (count, at) = read_chain::count_run(text, at, b"program=", Limit::Program)?;
    words::program::put_instructions(program, count);
    words::program::put_edition(program, edition);
    let instructions = read_instructions(text, at, count, edition, types, program);
    read_chain::then_end(text, instructions)
}

// What a reading comes to; beside a refusal nothing of it is handed out.
fn handed_out(
    read: Result<usize, LineFault>,
    tables: &mut TableWords,
    program: &mut ProgramWords,
) -> Place
    ensures { beside result (tables_in tables.new, program_in program.new)
        ≡ handed_out read (tables_in tables.old, program_in program.old) }
{
    if read.is_err() {
        words::tables::clear_tables(tables);
        words::program::clear_program(program);
    }
    read_chain::came_to(read)
}

// The sheet of a text of any length, in the lent words, whatever these held before; beside a refusal they are all 0.
pub fn fill_sheet(text: &[u8], tables: &mut TableWords, program: &mut ProgramWords) -> Place
    ensures { beside result (tables_in tables.new, program_in program.new) ≡ sheet_read text.now }
{
    words::tables::clear_tables(tables);
    words::program::clear_program(program);
    let read = read_lines(text, tables, program);
    handed_out(read, tables, program)
}

// The form of a text of any length, as lines, in the lent words; beside a refusal they are all 0.
pub fn fill_form(text: &[u8], tables: &mut TableWords, program: &mut ProgramWords) -> Place
    ensures { beside result (tables_in tables.new, program_in program.new) ≡ form_read text.now }
{
    let read = read_rows(text, tables, program);
    handed_out(read, tables, program)
}
