// The screen in the hall: one step on lent tables, program and configuration, with number 7 before all of 10 to 38. It has two doors:
// `hall` is over the step by value, `lent_step` moves the lent words on in place, for terminals with a small stack.
// Promised of both: the number, the use port concerned and every word of the configuration after it, for all that can be lent; a refusal leaves it untouched.
#![tactic(auto)]

ghost use Rattle.std.specs.Prelude.{◌≡◌};
ghost use Rattle.words.specs.Words.{tables_in, program_in, state_in};
ghost use Rattle.words.specs.Parts.{step_of};
ghost use Rattle.hall.specs.Screen.{lent_lawful};
ghost use Rattle.hall.specs.Words.{LeftWords};

use hall_configuration::configuration_lawful;
use hall_lawful::{program_lawful, step_lawful, tables_lawful};
use judge_spec::DEFAULT_DEPTH;
use step_ports::{Answered, about_none};
use step_walk::step;
use words::answer::StepWords;
use words::tables::types;
use words::{ProgramWords, StateWords, TableWords};

// 01's number: the named form answers it beside those of 10 to 38, so it is one.
const LIMIT_BROKEN: u32 = 7;

// A configuration as it is lent: its words.
#[derive(Clone, Copy)]
pub struct LentConfiguration {
    pub words: StateWords,
}

// What the step by value answers: the number and the use port concerned, and the configuration after it.
#[derive(Clone, Copy)]
pub struct Moved {
    pub answered: Answered,
    pub configuration: LentConfiguration,
}

// The configuration is looked at where tables, program and step are lawful: its queues are then no longer than the depth.
fn lent_lawful(
    tables: &TableWords,
    program: &ProgramWords,
    configuration: &StateWords,
    verb: u32,
    i: u32,
    n: u32,
) -> bool
    ensures { result ≡ lent_lawful (tables_in tables.now) (program_in program.now)
        (state_in configuration.now) (step_of verb i n) }
{
    let program_law = program_lawful(types(tables), program);
    let first = tables_lawful(tables) & (program_law & step_lawful(verb, i, n));
    if !first {
        return false;
    }
    configuration_lawful(DEFAULT_DEPTH as u32, tables, program, configuration)
}

// The lean door: the step in place. Nothing had been pushed before the first instruction.
pub fn lent_step(
    tables: &TableWords,
    program: &ProgramWords,
    configuration: &mut StateWords,
    verb: u32,
    i: u32,
    n: u32,
) -> Answered
    ensures { LeftWords tables.now program.now configuration.old (step_of verb i n)
        result configuration.new }
{
    if !lent_lawful(tables, program, configuration, verb, i, n) {
        return about_none(LIMIT_BROKEN);
    }
    let none = [0u32; 1];
    let asked = StepWords {
        verb,
        id: i,
        number: n,
    };
    step(
        DEFAULT_DEPTH as u32,
        tables,
        program,
        &none,
        configuration,
        asked,
    )
}

// The step by value.
pub fn hall_step(
    tables: &TableWords,
    program: &ProgramWords,
    configuration: LentConfiguration,
    verb: u32,
    i: u32,
    n: u32,
) -> Moved
    ensures { LeftWords tables.now program.now configuration.words (step_of verb i n)
        result.answered result.configuration.words }
{
    let mut words = configuration.words;
    let answered = lent_step(tables, program, &mut words, verb, i, n);
    let after = LentConfiguration { words };
    Moved {
        answered,
        configuration: after,
    }
}

// Stores the result, or leaves the lent configuration on a refusal.
pub fn hall(
    tables: &TableWords,
    program: &ProgramWords,
    configuration: &mut LentConfiguration,
    verb: u32,
    i: u32,
    n: u32,
) -> Answered
    ensures { LeftWords tables.now program.now configuration.old.words (step_of verb i n)
        result configuration.new.words }
{
    let m = hall_step(tables, program, *configuration, verb, i, n);
    if m.answered.refused == 0 {
        *configuration = m.configuration;
    }
    m.answered
}
