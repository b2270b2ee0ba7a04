// A program gone through on names alone, before any answer exists.
// Promised: for every paper the number, the instruction and its line that `foretold_on` and `foretold_line` of crates/foretell_spec give of it, and every byte
// that the program prints.
#![tactic(auto)]

mod names;

ghost use Rattle.std.specs.Prelude.{◌≡◌, length};
ghost use Rattle.io.specs.Counts.{IsPrefixLen};
ghost use Rattle.judge_spec.specs.Judged.{over};
ghost use Rattle.judge_spec.specs.Lent.{lent};
ghost use Rattle.foretell_spec.specs.Names.{foretold, foretold_from};
ghost use Rattle.write_items.specs.Written.{Written};
ghost use Rattle.words.specs.Words.{tables_in, program_in, program_from, state_in};
ghost use Rattle.step_walk.specs.Fits.{PortsFit};
ghost use Rattle.foretell_lib.specs.Foresees.{told_of, line_of, foreseen, refused_text, told_text, foreseen_text};

use judge_lib::papers::read_paper;
use judge_spec::Paper;
use model::Text;
use names::keep_names;
use read_lines::line_number;
use step_walk::step;
use words::answer::StepWords;
use words::program::instructions;
use words::state::done;
use words::{BegunWords, ProgramWords, StateWords, TableWords, fewer, less};

// What is printed has always room in so many bytes.
pub const FORESEEN_BYTES: usize = 96;

// `refused` is 0 or the number: of a text at fault, with its line there; or foretold of the instruction after the first `next` of them, with its line in
// the sheet.
#[derive(Drop)]
pub struct Foreseen {
    pub refused: u8,
    pub next: u32,
    pub text: Text,
    pub line: usize,
}

// How many instructions the names allow, and the number of the one after them.
// In words' widths what foretell_spec's Foretelling is: foretold_from is an equation of both fields.
#[derive(Clone, Copy)]
struct Told {
    next: u32,
    refused: u32,
}

// One instruction after the other, by the rules' own step; after each only the names are kept.
fn foretell_names(
    tables: &TableWords,
    program: &ProgramWords,
    begun: &BegunWords,
    state: &mut StateWords,
) -> Told
    ensures { PortsFit (program_from program.now begun.now) → told_of result
        ≡ foretold_from (tables_in tables.now) (program_from program.now begun.now)
        (program_in program.now).count (state_in state.old) }
{
    let n = instructions(program);
    for _ in 0..n {
        let next = StepWords {
            verb: 0,
            id: 0,
            number: 0,
        };
        let answered = step(1, tables, program, begun, state, next);
        if answered.refused != 0 {
            return Told {
                next: done(state),
                refused: answered.refused,
            };
        }
        keep_names(state);
    }
    Told {
        next: done(state),
        refused: 0,
    }
}

// The whole program, from the names of the state on.
fn foretell_program(
    tables: &TableWords,
    program: &ProgramWords,
    begun: &BegunWords,
    state: &mut StateWords,
) -> Told
    ensures { PortsFit (program_from program.now begun.now) → told_of result
        ≡ foretold (tables_in tables.now) (program_from program.now begun.now) (state_in state.old) }
{
    keep_names(state);
    foretell_names(tables, program, begun, state)
}

// The line of the sheet on which the instruction stands that is refused, after so many done; 0 where none is.
fn foretold_line(sheet: &[u8], program: &ProgramWords, next: u32, refused: u32) -> usize
    ensures { result ≡ line_of sheet.now (program_in program.now) next refused }
{
    if refused == 0 {
        return 0;
    }
    let left = fewer(instructions(program), next);
    less(line_number(sheet, sheet.len()), left as usize)
}

// What is foretold of a paper, a sheet with or without a start, before any answer exists.
pub fn foretell(paper: Paper<'_>) -> Foreseen
    ensures { result ≡ foreseen (lent paper.entry) }
{
    let mut tables = [0u32; 2002];
    let mut program = [0u32; 1282];
    let mut state = [0u32; 930];
    let mut begun = [0u32; 288];
    let fault = read_paper(paper, &mut tables, &mut program, &mut state, &mut begun);
    let text = fault.text;
    if fault.refused != 0 {
        return Foreseen {
            refused: fault.refused,
            next: 0,
            text,
            line: fault.line,
        };
    }
    let told = foretell_program(&tables, &program, &begun, &mut state);
    let line = foretold_line(paper.sheet, &program, told.next, told.refused);
    Foreseen {
        refused: told.refused as u8,
        next: told.next,
        text: Text::Neither,
        line,
    }
}

// next=, refused=
fn write_refused(t: &mut [u8], next: u32, refused: u8) -> usize
    ensures { Written t.old (refused_text next refused) t.new 0 result }
{
    let used = write_report::write_count(t, b"next=", next as usize);
    used + write_report::write_count(&mut t[used..], b"refused=", refused as usize)
}

// next=, refused=, line=
fn write_told(t: &mut [u8], next: u32, refused: u8, line: usize) -> usize
    ensures { Written t.old (told_text next refused line) t.new 0 result }
{
    let used = write_refused(t, next, refused);
    used + write_report::write_count(&mut t[used..], b"line=", line)
}

// What the `foretell` program prints: those three lines, or the three of a text at fault.
pub fn foretell_print(paper: Paper<'_>, out: &mut [u8; FORESEEN_BYTES]) -> usize
    ensures prints { (result ≡ length (foreseen_text (lent paper.entry)))
        × (out.new ≡ over (foreseen_text (lent paper.entry)) out.old) }
    ensures counts { IsPrefixLen result out.new }
{
    let f = foretell(paper);
    let text = f.text;
    match text {
        Text::Neither => write_told(out, f.next, f.refused, f.line),
        _ => write_report::write_fault(out, text, f.line, f.refused),
    }
}
