// Whether all is done, of what the words of a program and of a state say.
// Promised: `all_done`, on any words.
#![tactic(auto)]

ghost use Rattle.std.specs.Prelude.{◌≡◌, eqb};
ghost use Rattle.sets.specs.Test.{all_below};
ghost use Rattle.model.specs.View.{instance};
ghost use Rattle.words.specs.Words.{program_in, state_in};
ghost use Rattle.done_spec.specs.Done.{all_done};

use words::program::instructions;
use words::state::{done, queued};
use words::{ProgramWords, StateWords};

fn queues_empty(state: &StateWords) -> bool
    ensures { result ≡ all_below 32 (λ i. eqb (instance (state_in state.now) i).queued 0) }
{
    (0..32).all(|i| queued(state, i) == 0)
}

// The program is at its end, and all queues are empty.
pub fn all_done(program: &ProgramWords, state: &StateWords) -> bool
    ensures { result ≡ all_done (program_in program.now) (state_in state.now) }
{
    let empty = queues_empty(state);
    let ended = instructions(program) <= done(state);
    ended & empty
}
