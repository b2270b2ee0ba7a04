// One turn: the first allowed step in order is taken. A refused step changes nothing, so a trial is the step itself.
ghost use Rattle.std.specs.Prelude.{◌≡◌, ◌≤◌};
ghost use Rattle.judge_spec.specs.Course.{default_depth};
ghost use Rattle.words.specs.Words.{tables_in, program_from, state_in};
ghost use Rattle.words.specs.Parts.{said_step, step_of};
ghost use Rattle.step_walk.specs.Fits.{PortsFit};
ghost use Rattle.model_walk_spec.specs.Order.{in_order};
ghost use Rattle.model_walk_spec.specs.Walk.{first_of};
ghost use Rattle.model_walk_lib.specs.Turns.{ordered_at, turn_at, after_turn};

use judge_spec::DEFAULT_DEPTH;
use step_walk::step;
use words::answer::StepWords;
use words::{ProgramWords, StateWords, TableWords};

// `next`, and on each of 32 instances finish, 16 enter, 32 end, 16 fire.
pub(crate) const ORDERED: u32 = 2081;

const ON_EACH: u32 = 65;

fn step_of(verb: u32, id: u32, number: u32) -> StepWords
    ensures { said_step result ≡ step_of verb id number }
{
    StepWords { verb, id, number }
}

// Step k of the order.
pub(crate) fn ordered(k: u32) -> StepWords
    ensures { said_step result ≡ ordered_at k }
{
    if k == 0 {
        return step_of(0, 0, 0);
    }
    let i = (k - 1) / ON_EACH;
    let x = (k - 1) % ON_EACH;
    if x == 0 {
        return step_of(4, i, 0);
    }
    let enters = x < 17;
    if enters {
        return step_of(3, i, x - 1);
    }
    if x < 49 {
        return step_of(2, i, x - 17);
    }
    step_of(1, i, x - 49)
}

// The first step that is allowed, by its place in the order; one past the last where none is.
pub(crate) fn turn(
    tables: &TableWords,
    program: &ProgramWords,
    begun: &[u32],
    state: &mut StateWords,
) -> u32
    ensures { PortsFit (program_from program.now begun.now)
        → (turn_at result ≡ first_of default_depth (tables_in tables.now) (program_from program.now begun.now)
        (state_in state.old) in_order)
        × (state_in state.new ≡ after_turn (tables_in tables.now) (program_from program.now begun.now)
        (state_in state.old) (turn_at result)) }
{
    for k in 0..ORDERED {
        let due = ordered(k);
        let answered = step(DEFAULT_DEPTH as u32, tables, program, begun, state, due);
        if answered.refused == 0 {
            return k;
        }
    }
    ORDERED
}
