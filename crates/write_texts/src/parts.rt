// The parts of a sheet that are lines in turn, and the layouts in which they are written.
ghost use Rattle.std.specs.Prelude.{◌≡◌};
ghost use Rattle.words.specs.Words.{tables_in, program_in};
ghost use Rattle.write_texts.specs.Parts.{part_count, part_ok};

use words::program::instructions;
use words::tables::types;
use words::{ProgramWords, TableWords};

#[derive(Clone, Copy)]
pub(crate) enum Part {
    Types,
    Instructions,
}

// As a sheet, or as the lines of a form.
#[derive(Clone, Copy)]
pub(crate) enum Layout {
    Sheet,
    Form,
}

pub(crate) fn part_count(part: Part, tables: &TableWords, program: &ProgramWords) -> u32
    ensures { result ≡ part_count part (tables_in tables.now) (program_in program.now) }
{
    match part {
        Part::Types => types(tables),
        Part::Instructions => instructions(program),
    }
}

pub(crate) fn part_ok(part: Part, count: u32) -> bool
    ensures { result ≡ part_ok part count }
{
    match part {
        Part::Types => (1 <= count) & (count <= 16),
        Part::Instructions => count <= 256,
    }
}
