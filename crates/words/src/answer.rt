// The words of an answer.
ghost use Rattle.std.specs.Prelude.{◌≡◌, get_or};
ghost use Rattle.model.specs.Empty.{no_step, no_answer};
ghost use Rattle.read_spec.specs.Fill.{with_step};
ghost use Rattle.words.specs.Words.{answer_in};
ghost use Rattle.words.specs.Parts.{said_step, step_of, with_steps};

use crate::{AnswerWords, RowsAt, cell, put_row};
use model::put_at;

// Where the rows of the steps stand, and the word after them.
const STEPS: RowsAt = RowsAt {
    at: 0,
    count: 1024,
    width: 3,
};

const COUNT: usize = 3072;

// A step by its words.
#[derive(Clone, Copy)]
pub struct StepWords {
    pub verb: u32,
    pub id: u32,
    pub number: u32,
}

pub fn step_at(answer: &AnswerWords, n: u32) -> StepWords
    ensures { said_step result ≡ get_or (answer_in answer.now).steps n no_step }
{
    let row = n as usize;
    StepWords {
        verb: cell(answer, STEPS, row, 0),
        id: cell(answer, STEPS, row, 1),
        number: cell(answer, STEPS, row, 2),
    }
}

pub fn step_verb(answer: &AnswerWords, n: u32) -> u32
    ensures { result ≡ (get_or (answer_in answer.now).steps n no_step).verb }
{
    cell(answer, STEPS, n as usize, 0)
}

pub fn step_id(answer: &AnswerWords, n: u32) -> u32
    ensures { result ≡ (get_or (answer_in answer.now).steps n no_step).id }
{
    cell(answer, STEPS, n as usize, 1)
}

pub fn step_number(answer: &AnswerWords, n: u32) -> u32
    ensures { result ≡ (get_or (answer_in answer.now).steps n no_step).number }
{
    cell(answer, STEPS, n as usize, 2)
}

pub fn steps(answer: &AnswerWords) -> u32
    ensures { result ≡ (answer_in answer.now).count }
{
    answer[COUNT]
}

// Step n; past the last nothing changes.
pub fn put_step(answer: &mut AnswerWords, n: u32, verb: u32, id: u32, number: u32)
    ensures { answer_in answer.new ≡ with_step (answer_in answer.old) n (step_of verb id number) }
{
    put_row(answer, STEPS, n as usize, 0, &[verb, id, number]);
}

// No step; then an answer of so many, none written down yet.
pub fn clear_answer(answer: &mut AnswerWords)
    ensures { answer_in answer.new ≡ no_answer }
{
    *answer = [0u32; 3073];
}

// How many steps there are.
pub fn put_steps(answer: &mut AnswerWords, count: u32)
    ensures { answer_in answer.new ≡ with_steps (answer_in answer.old) count }
{
    put_at(answer, COUNT, count);
}
