// The program of a sheet.
ghost use Rattle.std.specs.Prelude.{drop};
ghost use Rattle.read_spec.specs.Lines.{each};
ghost use Rattle.read_spec.specs.Texts.{instruction_at};
ghost use Rattle.read_lines.specs.Runs.{RunsTo, came};
ghost use Rattle.words.specs.Words.{program_in};

use read_lines::LineFault;
use words::ProgramWords;

// Instruction n, in a sheet of so many types that opens with this number, from the part of the text that starts with its line.
fn read_instruction(
    text: &[u8],
    start: usize,
    edition: u32,
    types: u32,
    n: u32,
    program: &mut ProgramWords,
) -> Result<usize, LineFault>
    ensures { RunsTo text.now (came result (program_in program.new))
        (instruction_at edition types n (program_in program.old) (drop start text.now)) }
{
    let at = read_items::place_in(text, start);
    let line = read_sheet_lines::do_line(&text[at..], edition, types);
    let (said, used) = read_chain::line_at(at, line)?;
    words::program::put_instruction(
        program,
        n,
        said.verb,
        said.id,
        said.number,
        said.provider,
        said.provideport,
    );
    Ok(at + used)
}

// So many instructions, in a sheet of so many types.
pub(crate) fn read_instructions(
    text: &[u8],
    start: usize,
    count: u32,
    edition: u32,
    types: u32,
    program: &mut ProgramWords,
) -> Result<usize, LineFault>
    ensures { RunsTo text.now (came result (program_in program.new))
        (each (instruction_at edition types) count 0 (program_in program.old) (drop start text.now)) }
{
    let mut at = read_items::place_in(text, start);
    for i in 0..count {
        at = read_instruction(text, at, edition, types, i, program)?;
    }
    Ok(at)
}
