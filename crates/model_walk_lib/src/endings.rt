// How a walk ends: whether all is done, and else by how many steps it has.
ghost use Rattle.std.specs.Prelude.{◌≡◌};
ghost use Rattle.words.specs.Words.{program_in, state_in};
ghost use Rattle.model_walk_spec.specs.Walk.{ending};

use model_walk_spec::Ending;
use step_done::all_done;
use words::{ProgramWords, StateWords};

// After so many steps a walk is cut.
pub(crate) const MOST_STEPS: u32 = 1024;

pub(crate) fn ending_of(program: &ProgramWords, state: &StateWords, steps: u32) -> Ending
    ensures { result ≡ ending (program_in program.now) steps (state_in state.now) }
{
    if all_done(program, state) {
        return Ending::Done;
    }
    if MOST_STEPS <= steps {
        return Ending::Cut;
    }
    Ending::Stuck
}
