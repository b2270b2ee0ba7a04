// One step by its verb, and the walk of an answer, in place.
// Promised, of every program: what each leaves in the state and answers is the step and the walk of rules_spec/specs, but that a use port which is to
// get a server whose number no word holds is left without one, and that a push which no word holds leaves 0 in its slot (specs/Held).
#![tactic(auto)]

ghost use Rattle.std.specs.Prelude.{◌≡◌, List, ℕ, ◌<◌, min};
ghost use Rattle.model.specs.View.{steps_of};
ghost use Rattle.rules_spec.specs.Tickets.{pushed_to};
ghost use Rattle.rules_spec.specs.Action.{instruction_action, move_action, effect};
ghost use Rattle.rules_spec.specs.Step.{check_at};
ghost use Rattle.words.specs.Words.{tables_in, program_from, answer_in, state_in};
ghost use Rattle.words.specs.Parts.{said, said_step, step_of};
ghost use Rattle.step_walk.specs.Reached.{tally, answer_at, stepped, passed, walked};
ghost use Rattle.step_walk.specs.Held.{held, held_step, held_walk};

use model::Concerned;
use rules_spec::NO_INSTRUCTION_LEFT;
use step_connections::{connect, disconnect};
use step_instructions::tickets::{push_ticket_check, push_ticket_to, wait_ticket_check};
use step_instructions::{
    add_check, add_to, con_check, dcon_check, del_check, del_to, push_to, pushb_check, wait_check,
};
use step_moves::{
    end_check, end_to, enter_check, enter_to, finish_check, finish_to, fire_check, fire_to,
};
use step_ports::{Answered, about_none};
use words::answer::{StepWords, step_at, steps};
use words::program::{InstructionWords, instruction, instructions};
use words::state::{done, put_done};
use words::{AnswerWords, ProgramWords, StateWords, TableWords};

// How far a walk came: the steps allowed, the number of the refusal, or 0, and the use port concerned.
// Not a Result: held_walk (specs/Held) is an equation of all three; a refused walk has its count too.
#[derive(Clone, Copy)]
pub struct Passed {
    pub accepted: u32,
    pub refused: u32,
    pub port: Concerned,
}

// The number of a move and the use port concerned, by its verb, whose code is matched by 01's form: an unknown one counts as the last.
fn move_check(tables: &TableWords, state: &StateWords, verb: u32, i: u32, n: u32) -> Answered
    ensures { (default : ℕ) → result ≡ answer_at default (tables_in tables.now) (state_in state.now) (move_action (step_of verb i n)) }
{
    match verb {
        1 => fire_check(tables, state, i, n),
        2 => about_none(end_check(state, i, n)),
        3 => enter_check(tables, state, i, n),
        _ => about_none(finish_check(tables, state, i)),
    }
}

fn move_to(tables: &TableWords, state: &mut StateWords, verb: u32, i: u32, n: u32)
    ensures { state_in state.new ≡ effect (tables_in tables.now) (state_in state.old) (move_action (step_of verb i n)) }
{
    match verb {
        1 => fire_to(tables, state, i, n),
        2 => end_to(state, i, n),
        3 => enter_to(tables, state, i, n),
        _ => finish_to(state, i),
    }
}

// The number of an instruction after so many others, by its verb: an unknown one counts as the wait. Where it is 0 there is room for one more.
fn line_check(
    default: u32,
    tables: &TableWords,
    program: &ProgramWords,
    begun: &[u32],
    state: &StateWords,
    at: u32,
    line: InstructionWords,
) -> u32
    ensures value { result ≡ check_at default (tables_in tables.now) (state_in state.now)
        (instruction_action (pushed_to (program_from program.now begun.now) line.id at) (said line)) }
    ensures room { (l : List ℕ) → result ≡ 0 → tally (state_in state.now) (instruction_action l (said line)) < 4294967295 }
{
    let verb = line.verb;
    let i = line.id;
    let n = line.number;
    match verb {
        0 => add_check(state, i),
        1 => del_check(state, i),
        2 => pushb_check(default, tables, state, i, n, false),
        3 => con_check(tables, state, i, n, line.provider, line.provideport),
        4 => dcon_check(tables, state, i, n, line.provider, line.provideport),
        6 => push_ticket_check(default, tables, program, begun, state, at, line),
        7 => wait_ticket_check(program, begun, state, at, line),
        _ => wait_check(state, i),
    }
}

fn line_to(tables: &TableWords, state: &mut StateWords, line: InstructionWords)
    ensures { (l : List ℕ) → tally (state_in state.old) (instruction_action l (said line)) < 4294967295
        → state_in state.new ≡ held (tables_in tables.now) (state_in state.old) (instruction_action l (said line)) }
{
    let verb = line.verb;
    let i = line.id;
    let n = line.number;
    match verb {
        0 => add_to(tables, state, i, n),
        1 => del_to(state, i),
        2 => push_to(state, i, n),
        3 => connect(state, i, n, line.provider, line.provideport),
        4 => disconnect(state, i, n),
        6 => push_ticket_to(state, line),
        _ => {}
    }
}

// One step: the number of its refusal, the use port concerned and nothing changed, or 0 and what it changes.
pub fn step(
    default: u32,
    tables: &TableWords,
    program: &ProgramWords,
    begun: &[u32],
    state: &mut StateWords,
    step: StepWords,
) -> Answered
    ensures { stepped result (state_in state.new)
        ≡ held_step default (tables_in tables.now) (program_from program.now begun.now) (state_in state.old)
        (said_step step) }
{
    let verb = step.verb;
    let i = step.id;
    let n = step.number;
    if verb != 0 {
        let answered = move_check(tables, state, verb, i, n);
        if answered.refused != 0 {
            return answered;
        }
        move_to(tables, state, verb, i, n);
        return about_none(0);
    }
    let at = done(state);
    if instructions(program) <= at {
        return about_none(NO_INSTRUCTION_LEFT);
    }
    let line = instruction(program, at);
    let refused = line_check(default, tables, program, begun, state, at, line);
    if refused != 0 {
        return about_none(refused);
    }
    line_to(tables, state, line);
    put_done(state, at + 1);
    about_none(0)
}

// How many steps there are: no more than the array holds.
pub fn step_count(answer: &AnswerWords) -> u32
    ensures { result ≡ min (answer_in answer.now).count 1024 }
{
    steps(answer).min(1024)
}

fn come_to(accepted: u32, answered: Answered) -> Passed
    ensures { result ≡ passed accepted answered }
{
    let port = answered.port;
    Passed {
        accepted,
        refused: answered.refused,
        port,
    }
}

// The walk of an answer, to its end or to the first step that the rules forbid.
pub fn walk(
    default: u32,
    tables: &TableWords,
    program: &ProgramWords,
    begun: &[u32],
    answer: &AnswerWords,
    state: &mut StateWords,
) -> Passed
    ensures { walked result (state_in state.new)
        ≡ held_walk default (tables_in tables.now) (program_from program.now begun.now) (state_in state.old)
        (steps_of (answer_in answer.now)) }
{
    let n = step_count(answer);
    for k in 0..n {
        let due = step_at(answer, k);
        let answered = step(default, tables, program, begun, state, due);
        if answered.refused != 0 {
            return come_to(k, answered);
        }
    }
    come_to(n, about_none(0))
}
