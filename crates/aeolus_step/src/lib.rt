// The actions of the Aeolus paper on lent words, and the run of a plan, in place.
// Promised: an action and a run are those of aeolus_rules_spec/specs, and a refused action changes nothing.
#![tactic(auto)]

mod changes;
pub mod checks;

ghost use Rattle.std.specs.Prelude.{◌≡◌, min};
ghost use Rattle.aeolus_model.specs.Action.{action_of, actions_of};
ghost use Rattle.aeolus_model.specs.Words.{universe_in, plan_in, configuration_in};
ghost use Rattle.aeolus_rules_spec.specs.Action.{effect, reached_check, settle, act};
ghost use Rattle.aeolus_rules_spec.specs.Run.{run};

use aeolus_correct::{last_check, reached_check};
use aeolus_model::{Deployed, Plan, Step, Universe, step_at, steps};
use changes::carry_out;
use checks::own_check;

// How far a run came: the actions allowed, and 0 or the number.
// Not a Result: `run` (crates/aeolus_rules_spec) answers both, and a refused run has its count too.
#[derive(Clone, Copy)]
pub struct Passed {
    pub accepted: u32,
    pub refused: u32,
}

// An action whose own condition holds: 68 or 69 and nothing changed, or 0 and what it does.
fn reach(universe: &Universe, deployed: &mut Deployed, step: Step) -> u32
    ensures { record { refused = result; configuration = configuration_in deployed.new } ≡ settle
        (reached_check (universe_in universe.now)
        (effect (universe_in universe.now) (configuration_in deployed.old) (action_of step)))
        (configuration_in deployed.old) (effect (universe_in universe.now) (configuration_in deployed.old) (action_of step)) }
{
    let before = *deployed;
    carry_out(universe, deployed, step);
    let refused = reached_check(universe, deployed);
    if refused != 0 {
        *deployed = before;
        return refused;
    }
    0
}

// The number of its refusal and nothing changed, or 0 and what it does.
pub fn act(universe: &Universe, deployed: &mut Deployed, step: Step) -> u32
    ensures { record { refused = result; configuration = configuration_in deployed.new }
        ≡ act (universe_in universe.now) (configuration_in deployed.old) (action_of step) }
{
    let refused = own_check(universe, deployed, step);
    if refused != 0 {
        return refused;
    }
    reach(universe, deployed, step)
}

// How many steps there are: no more than the array holds.
fn step_count(plan: &Plan) -> u32
    ensures { result ≡ min (plan_in plan.now).count 1024 }
{
    let n = steps(plan);
    if n < 1024 { n } else { 1024 }
}

// The run of a plan, to its end or to the first action that is refused.
pub fn run(universe: &Universe, plan: &Plan, deployed: &mut Deployed) -> Passed
    ensures { record { accepted = result.accepted; refused = result.refused; configuration = configuration_in deployed.new }
        ≡ run (universe_in universe.now) (configuration_in deployed.old) (actions_of (plan_in plan.now)) }
{
    let n = step_count(plan);
    for k in 0..n {
        let step = step_at(plan, k as usize);
        let refused = act(universe, deployed, step);
        if refused != 0 {
            return Passed {
                accepted: k,
                refused,
            };
        }
    }
    let refused = last_check(universe, deployed);
    Passed {
        accepted: n,
        refused,
    }
}
