// A plan read whole into lent words: its two first lines, then its steps, each line from the part of the text that starts with it.
// Promised: for every text and number of types `fill_plan` answers the one number and place that `whole` gives of the paper's plan, and the
// words say the plan that it gives, whatever they held before.
#![tactic(auto)]

ghost use Rattle.std.specs.Prelude.{◌≡◌, drop};
ghost use Rattle.read_items.specs.Reads.{Reads};
ghost use Rattle.read_spec.specs.Lines.{each};
ghost use Rattle.read_lines.specs.Runs.{RunsTo, came};
ghost use Rattle.read_chain.specs.Chain.{shortly};
ghost use Rattle.read_chain.specs.Whole.{whole, beside};
ghost use Rattle.aeolus_model.specs.Action.{no_plan};
ghost use Rattle.aeolus_model.specs.Words.{plan_in};
ghost use Rattle.aeolus_read_spec.specs.Kinds.{step_line};
ghost use Rattle.aeolus_read_spec.specs.Texts.{step_at, plan};
ghost use Rattle.aeolus_read_plan.specs.Says.{step_says, step_numbers};

use aeolus_model::{Plan, Step};
use item_spec::Refusal;
use read_chain::Place;
use read_items::Digits;
use read_items::numbers::Limits;
use read_lines::LineFault;

// The codes of the verbs, as in aeolus_model::Step: numbers, since 01's form matches a verb's code.
const NEW: u32 = 0;

const DEL: u32 = 1;

const CHANGE: u32 = 2;

const BIND: u32 = 3;

const UNBIND: u32 = 4;

// What follows a verb: so many numbers; a binding's two ends differ.
fn step_numbers(s: &[u8], at: usize, verb: u32, limits: Limits) -> Result<(Step, usize), Refusal>
    ensures { Reads s.now (step_says result) (step_numbers verb limits (drop at s.now)) }
{
    let (n, used) = read_items::numbers::numbers_within(s, at, Digits::Five, limits)?;
    if (BIND <= verb) & (n.second == n.third) {
        return Err(Refusal::BadClause);
    }
    let step = Step {
        verb,
        first: n.first,
        second: n.second,
        third: n.third,
    };
    Ok((step, used))
}

// `step=`, in a sheet of so many types: the step, and the bytes that the line used.
pub fn step_line(s: &[u8], types: u32) -> Result<(Step, usize), Refusal>
    ensures { Reads s.now (step_says result) (step_line types s.now) }
{
    if let Some(i) = read_items::past_key(s, 0, b"step=new,") {
        return step_numbers(s, i, NEW, Limits::Two(32, types));
    }
    if let Some(i) = read_items::past_key(s, 0, b"step=del,") {
        return step_numbers(s, i, DEL, Limits::One(32));
    }
    if let Some(i) = read_items::past_key(s, 0, b"step=change,") {
        return step_numbers(s, i, CHANGE, Limits::Three(32, 16, 16));
    }
    if let Some(i) = read_items::past_key(s, 0, b"step=bind,") {
        return step_numbers(s, i, BIND, Limits::Three(256, 32, 32));
    }
    if let Some(i) = read_items::past_key(s, 0, b"step=unbind,") {
        return step_numbers(s, i, UNBIND, Limits::Three(256, 32, 32));
    }
    Err(Refusal::BadForm)
}

// The step of the line at a place, as step n of the plan.
fn read_step(
    text: &[u8],
    start: usize,
    types: u32,
    n: u32,
    words: &mut Plan,
) -> Result<usize, LineFault>
    ensures { RunsTo text.now (came result (plan_in words.new)) (step_at types n (plan_in words.old) (drop start text.now)) }
{
    let at = read_items::place_in(text, start);
    let (step, used) = read_chain::line_at(at, step_line(&text[at..], types))?;
    aeolus_model::put_step(words, n as usize, step);
    Ok(at + used)
}

// As many steps as the last line said.
fn read_steps(
    text: &[u8],
    start: usize,
    count: u32,
    types: u32,
    words: &mut Plan,
) -> Result<usize, LineFault>
    ensures { RunsTo text.now (came result (plan_in words.new))
        (each (step_at types) count 0 (plan_in words.old) (drop start text.now)) }
{
    let mut at = read_items::place_in(text, start);
    for i in 0..count {
        at = read_step(text, at, types, i, words)?;
    }
    Ok(at)
}

// The lines of a plan, up to the text's end.
fn read_plan(text: &[u8], types: u32, words: &mut Plan) -> Result<usize, LineFault>
    ensures { RunsTo text.now (came result (plan_in words.new)) (shortly (plan types) text.now) }
{
    aeolus_model::clear_plan(words);
    let at = read_chain::then_due(text, read_chain::length_run(text), b"plan=", 1)?;
    let (count, at) = read_chain::within_run(text, at, b"steps=", 0, 1024)?;
    aeolus_model::put_steps(words, count);
    let steps = read_steps(text, at, count, types, words);
    read_chain::then_end(text, steps)
}

// The plan of a text of any length, in a sheet of so many types, whatever the lent words held before; beside a refusal they are all 0.
pub fn fill_plan(text: &[u8], types: u32, words: &mut Plan) -> Place
    ensures { beside result (plan_in words.new) ≡ whole no_plan (plan types) text.now }
{
    let read = read_plan(text, types, words);
    if read.is_err() {
        aeolus_model::clear_plan(words);
    }
    read_chain::came_to(read)
}
