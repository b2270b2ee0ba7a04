// An answer read whole into lent words: its two first lines, then its steps, each line from the part of the text that starts with it.
// Promised: for every text `fill_answer` answers the one number and place that `answer_read` gives of it, and the words say the answer that it
// gives, whatever they held before.
#![tactic(auto)]

ghost use Rattle.std.specs.Prelude.{◌≡◌, drop};
ghost use Rattle.read_items.specs.Reads.{Reads};
ghost use Rattle.model.specs.Empty.{no_answer};
ghost use Rattle.read_spec.specs.Lines.{each};
ghost use Rattle.read_spec.specs.Kinds.{step_line};
ghost use Rattle.read_spec.specs.Texts.{step_at};
ghost use Rattle.read_lines.specs.Runs.{RunsTo, came};
ghost use Rattle.read_chain.specs.Whole.{beside};
ghost use Rattle.words.specs.Words.{answer_in};
ghost use Rattle.read_answer.specs.Says.{step_says, step_numbers};
ghost use Rattle.read_answer.specs.Answer.{answer_lines, answer_read};

use item_spec::Refusal;
use read_chain::Place;
use read_items::Digits;
use read_items::numbers::Limits;
use read_lines::{Limit, LineFault};
use words::AnswerWords;
use words::answer::StepWords;

// The codes of the verbs, as in model::Step: numbers, since 01's form matches a verb's code.
const NEXT: u32 = 0;

const FIRE: u32 = 1;

const END: u32 = 2;

const ENTER: u32 = 3;

const FINISH: u32 = 4;

// What follows the verb of a `step` line: one number or two. A number that the line has not is 0.
fn step_numbers(
    s: &[u8],
    at: usize,
    verb: u32,
    limits: Limits,
) -> Result<(StepWords, usize), Refusal>
    ensures { Reads s.now (step_says result) (step_numbers verb limits (drop at s.now)) }
{
    let (n, used) = read_items::numbers::numbers_within(s, at, Digits::Five, limits)?;
    let step = StepWords {
        verb,
        id: n.first,
        number: n.second,
    };
    Ok((step, used))
}

// `step=`: the step, and the bytes that the line used.
pub fn step_line(s: &[u8]) -> Result<(StepWords, usize), Refusal>
    ensures { Reads s.now (step_says result) (step_line s.now) }
{
    if let Some(used) = read_items::past_key(s, 0, b"step=next\n") {
        let step = StepWords {
            verb: NEXT,
            id: 0,
            number: 0,
        };
        return Ok((step, used));
    }
    if let Some(i) = read_items::past_key(s, 0, b"step=fire,") {
        return step_numbers(s, i, FIRE, Limits::Two(32, 16));
    }
    if let Some(i) = read_items::past_key(s, 0, b"step=end,") {
        return step_numbers(s, i, END, Limits::Two(32, 32));
    }
    if let Some(i) = read_items::past_key(s, 0, b"step=enter,") {
        return step_numbers(s, i, ENTER, Limits::Two(32, 16));
    }
    if let Some(i) = read_items::past_key(s, 0, b"step=finish,") {
        return step_numbers(s, i, FINISH, Limits::One(32));
    }
    Err(Refusal::BadForm)
}

// Step n, from the part of the text that starts with its line.
fn read_step(
    text: &[u8],
    start: usize,
    n: u32,
    answer: &mut AnswerWords,
) -> Result<usize, LineFault>
    ensures { RunsTo text.now (came result (answer_in answer.new)) (step_at n (answer_in answer.old) (drop start text.now)) }
{
    let at = read_items::place_in(text, start);
    let (step, used) = read_chain::line_at(at, step_line(&text[at..]))?;
    words::answer::put_step(answer, n, step.verb, step.id, step.number);
    Ok(at + used)
}

// As many steps as the last line said.
fn read_steps(
    text: &[u8],
    start: usize,
    count: u32,
    answer: &mut AnswerWords,
) -> Result<usize, LineFault>
    ensures { RunsTo text.now (came result (answer_in answer.new))
        (each step_at count 0 (answer_in answer.old) (drop start text.now)) }
{
    let mut at = read_items::place_in(text, start);
    for i in 0..count {
        at = read_step(text, at, i, answer)?;
    }
    Ok(at)
}

// The lines of an answer, up to the text's end, into words that say none.
fn read_lines(text: &[u8], answer: &mut AnswerWords) -> Result<usize, LineFault>
    requires { answer_in answer.old ≡ no_answer }
    ensures { RunsTo text.now (came result (answer_in answer.new)) (answer_lines text.now) }
{
    let first = read_chain::then_due(text, read_chain::length_run(text), b"answer=", 1);
    let (count, at) = read_chain::then_number(text, first, b"steps=", Limit::Steps)?;
    words::answer::put_steps(answer, count);
    let steps = read_steps(text, at, count, answer);
    read_chain::then_end(text, steps)
}

// The answer of a text of any length, in the lent words, whatever these held before; beside a refusal they are all 0.
pub fn fill_answer(text: &[u8], answer: &mut AnswerWords) -> Place
    ensures { beside result (answer_in answer.new) ≡ answer_read text.now }
{
    words::answer::clear_answer(answer);
    let read = read_lines(text, answer);
    if read.is_err() {
        words::answer::clear_answer(answer);
    }
    read_chain::came_to(read)
}
