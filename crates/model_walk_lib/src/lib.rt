// A model walk from a sheet and, where one is given, its start: at each turn the first allowed step in the order of crates/model_walk_spec, written as an
// answer.
// Promised: for every paper and every lent buffer the number, the text and the line at fault, how the walk ends, how many steps it has, and every byte of
// the buffer.
#![tactic(auto)]

mod endings;
mod turns;

ghost use Rattle.std.specs.Prelude.{◌≡◌, ◌≤◌, length, take};
ghost use Rattle.io.specs.Counts.{IsPrefixLen};
ghost use Rattle.judge_spec.specs.Course.{default_depth};
ghost use Rattle.judge_spec.specs.Judged.{over};
ghost use Rattle.judge_spec.specs.Lent.{lent};
ghost use Rattle.words.specs.Words.{tables_in, program_from, state_in, answer_in};
ghost use Rattle.step_walk.specs.Fits.{PortsFit};
ghost use Rattle.model_walk_spec.specs.Walk.{model_steps, model_reached};
ghost use Rattle.model_walk_lib.specs.Models.{no_model, model_in, bytes_in, Models};

use endings::{MOST_STEPS, ending_of};
use judge_lib::papers::read_paper;
use judge_spec::Paper;
use model::Text;
use model_walk_spec::Ending;
use turns::{ORDERED, ordered, turn};
use words::answer::{put_step, put_steps};
use words::{AnswerWords, BegunWords, ProgramWords, StateWords, TableWords};

// `refused` is 0 or the number, 1 to 6 or 50, with the text at fault and its line; beside a refusal the others are 0 and NoEnding.
#[derive(Clone, Copy)]
pub struct Modelled {
    pub refused: u8,
    pub text: Text,
    pub line: usize,
    pub ending: Ending,
    pub steps: u32,
    pub written: usize,
}

// The model walk from the state on, step by step, into the lent answer; how many steps it has.
fn model_steps(
    tables: &TableWords,
    program: &ProgramWords,
    begun: &[u32],
    state: &mut StateWords,
    answer: &mut AnswerWords,
) -> u32
    ensures few { result ≤ 1024 }
    ensures walks { PortsFit (program_from program.now begun.now)
        → (take result (answer_in answer.new).steps
        ≡ model_steps default_depth (tables_in tables.now) (program_from program.now begun.now)
        (state_in state.old))
        × (state_in state.new
        ≡ model_reached default_depth (tables_in tables.now) (program_from program.now begun.now)
        (state_in state.old)) }
{
    for k in 0..MOST_STEPS {
        let at = turn(tables, program, begun, state);
        if ORDERED <= at {
            return k;
        }
        let s = ordered(at);
        put_step(answer, k, s.verb, s.id, s.number);
    }
    MOST_STEPS
}

fn no_model(refused: u8, text: Text, line: usize) -> Modelled
    ensures { result ≡ no_model refused text line }
{
    Modelled {
        refused,
        text,
        line,
        ending: Ending::NoEnding,
        steps: 0,
        written: 0,
    }
}

// The model walk of tables and a program from the state on, as an answer's text.
fn write_model(
    tables: &TableWords,
    program: &ProgramWords,
    begun: &BegunWords,
    state: &mut StateWords,
    out: &mut [u8],
) -> Modelled
    ensures model { PortsFit (program_from program.now begun.now)
        → (result ≡ model_in (length out.old)
        (tables_in tables.now, program_from program.now begun.now, state_in state.old))
        × (out.new ≡ over (bytes_in (length out.old)
        (tables_in tables.now, program_from program.now begun.now, state_in state.old)) out.old) }
    ensures counts { IsPrefixLen result.written out.new }
{
    let mut answer = [0u32; 3073];
    let steps = model_steps(tables, program, begun, state, &mut answer);
    put_steps(&mut answer, steps);
    let ending = ending_of(program, state, steps);
    let text = write_texts::write_answer(&answer, out);
    if text.refused != 0 {
        return no_model(text.refused, Text::Neither, 0);
    }
    Modelled {
        refused: 0,
        text: Text::Neither,
        line: 0,
        ending,
        steps,
        written: text.bytes,
    }
}

// The model walk of a paper, a sheet with or without a start, in the lent buffer.
pub fn model_walk(paper: Paper<'_>, out: &mut [u8]) -> Modelled
    ensures models { Models (lent paper.entry) out.old result out.new }
    ensures counts { IsPrefixLen result.written out.new }
{
    let mut tables = [0u32; 2002];
    let mut program = [0u32; 1282];
    let mut state = [0u32; 930];
    let mut begun = [0u32; 288];
    let fault = read_paper(paper, &mut tables, &mut program, &mut state, &mut begun);
    let text = fault.text;
    if fault.refused != 0 {
        return no_model(fault.refused, text, fault.line);
    }
    write_model(&tables, &program, &begun, &mut state, out)
}
