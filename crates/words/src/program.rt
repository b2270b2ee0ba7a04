// The words of a program.
ghost use Rattle.std.specs.Prelude.{◌≡◌, get_or};
ghost use Rattle.model.specs.Empty.{no_instruction, no_program};
ghost use Rattle.read_spec.specs.Fill.{program_of, with_instruction};
ghost use Rattle.words.specs.Words.{program_in};
ghost use Rattle.words.specs.Parts.{instruction_of, said, with_instructions, with_edition};

use crate::{ProgramWords, RowsAt, cell, put_row};
use model::put_at;

// Where the rows of the instructions stand, and the two words after them.
const INSTRUCTIONS: RowsAt = RowsAt {
    at: 0,
    count: 256,
    width: 5,
};

const COUNT: usize = 1280;

const EDITION: usize = 1281;

// An instruction by its words.
#[derive(Clone, Copy)]
pub struct InstructionWords {
    pub verb: u32,
    pub id: u32,
    pub number: u32,
    pub provider: u32,
    pub provideport: u32,
}

pub fn instruction(program: &ProgramWords, n: u32) -> InstructionWords
    ensures { said result ≡ get_or (program_in program.now).instructions n no_instruction }
{
    let row = n as usize;
    InstructionWords {
        verb: cell(program, INSTRUCTIONS, row, 0),
        id: cell(program, INSTRUCTIONS, row, 1),
        number: cell(program, INSTRUCTIONS, row, 2),
        provider: cell(program, INSTRUCTIONS, row, 3),
        provideport: cell(program, INSTRUCTIONS, row, 4),
    }
}

pub fn instructions(program: &ProgramWords) -> u32
    ensures { result ≡ (program_in program.now).count }
{
    program[COUNT]
}

// The number that the sheet opens with.
pub fn edition(program: &ProgramWords) -> u32
    ensures { result ≡ (program_in program.now).edition }
{
    program[EDITION]
}

// Instruction n; past the last nothing changes.
pub fn put_instruction(
    program: &mut ProgramWords,
    n: u32,
    verb: u32,
    id: u32,
    number: u32,
    provider: u32,
    provideport: u32,
)
    ensures { program_in program.new
        ≡ with_instruction (program_in program.old) n (instruction_of verb id number provider provideport) }
{
    put_row(
        program,
        INSTRUCTIONS,
        n as usize,
        0,
        &[verb, id, number, provider, provideport],
    );
}

// No instruction; then a program of so many, none written down yet.
pub fn clear_program(program: &mut ProgramWords)
    ensures { program_in program.new ≡ no_program }
{
    *program = [0u32; 1282];
}

// How many instructions there are.
pub fn put_instructions(program: &mut ProgramWords, count: u32)
    ensures { program_in program.new ≡ with_instructions (program_in program.old) count }
{
    put_at(program, COUNT, count);
}

pub fn put_edition(program: &mut ProgramWords, edition: u32)
    ensures { program_in program.new ≡ with_edition (program_in program.old) edition }
{
    put_at(program, EDITION, edition);
}

// No instructions yet, whatever the words held before.
pub fn start_program(program: &mut ProgramWords, edition: u32, count: u32)
    ensures { program_in program.new ≡ program_of edition count }
{
    clear_program(program);
    put_instructions(program, count);
    put_edition(program, edition);
}
