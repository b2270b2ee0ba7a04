// The state by its names alone: who is there, of which type, and who serves whom.
ghost use Rattle.std.specs.Prelude.{◌≡◌};
ghost use Rattle.model.specs.View.{with_queue};
ghost use Rattle.rules_spec.specs.Closing.{zeroed};
ghost use Rattle.words.specs.Words.{state_in};
ghost use Rattle.foretell_spec.specs.Names.{names_of};
ghost use Rattle.foretell_lib.specs.Quiet.{quiet_below};

use words::StateWords;
use words::state::{kind, present, put_bare, put_slot};

// Nothing is marked, held or queued in any instance.
fn quiet_all(state: &mut StateWords)
    ensures { state_in state.new ≡ quiet_below 32 (state_in state.old) }
{
    for i in 0..32 {
        let here = present(state, i);
        let k = kind(state, i);
        put_bare(state, i, here, k, 0);
    }
}

fn zero_queues(state: &mut StateWords)
    ensures { state_in state.new ≡ with_queue (state_in state.old) (zeroed (state_in state.old).queue 0 256) }
{
    for n in 0..256 {
        put_slot(state, n, 0);
    }
}

pub(crate) fn keep_names(state: &mut StateWords)
    ensures { state_in state.new ≡ names_of (state_in state.old) }
{
    quiet_all(state);
    zero_queues(state);
}
