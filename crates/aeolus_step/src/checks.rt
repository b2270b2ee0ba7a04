// The actions' own conditions on lent words, and how many bindings stand.
// Promised: each check answers the number of aeolus_rules_spec/specs.
ghost use Rattle.std.specs.Prelude.{◌≡◌, ◌+◌, ◌*◌, ◌≤◌, ◌<◌, get_or};
ghost use Rattle.sets.specs.Test.{tally};
ghost use Rattle.sets.specs.Mask.{member};
ghost use Rattle.aeolus_model.specs.Action.{action_of};
ghost use Rattle.aeolus_model.specs.Words.{universe_in, configuration_in};
ghost use Rattle.aeolus_rules_spec.specs.Change.{change_check};
ghost use Rattle.aeolus_rules_spec.specs.Bind.{bindings, bind_check};
ghost use Rattle.aeolus_rules_spec.specs.Action.{check};
ghost use Rattle.aeolus_step.specs.Rows.{EmptyRows, first_sizes};

use aeolus_correct::{is_bound, is_deployed};
use aeolus_model::{
    Deployed, Step, Universe, bound_row, kind_of, may_provide, may_require, state_of, to_of,
};
use rules_spec::refuse_if;

// How many members a set has.
pub fn size_of(m: u32) -> u32
    ensures { result ≡ tally 32 (λ y. member y m) }
{
    u32::count_ones(m)
}

// The same of row n of the bindings. Most rows are empty, and then nothing is counted.
fn row_size(deployed: &Deployed, n: usize) -> u32
    ensures { result ≡ tally 32 (λ y. member y (get_or (configuration_in deployed.now).bound n 0)) }
{
    let m = bound_row(deployed, n);
    if m == 0 {
        return 0;
    }
    size_of(m)
}

// The rows of z joined: 0 only where all are empty.
fn joined_rows(deployed: &Deployed, z: usize) -> u32
    requires { z < 32 }
    ensures { result ≡ 0 → EmptyRows (configuration_in deployed.now) z 16 }
{
    let mut all: u32 = 0;
    for j in 0..16 {
        all = sets::joined(all, bound_row(deployed, z * 16 + j));
    }
    all
}

// How many bindings stand in the sixteen rows of z. Where all are empty, none is looked at by itself.
fn rows_size(deployed: &Deployed, z: usize) -> u32
    requires { z < 32 }
    ensures { (result ≤ 512) × (first_sizes (configuration_in deployed.now) (z * 16 + 16)
        ≡ first_sizes (configuration_in deployed.now) (z * 16) + result) }
{
    if joined_rows(deployed, z) == 0 {
        return 0;
    }
    let mut n: u32 = 0;
    for j in 0..16 {
        n += row_size(deployed, z * 16 + j);
    }
    n
}

// How many bindings stand.
pub fn bindings(deployed: &Deployed) -> u32
    ensures { result ≡ bindings (configuration_in deployed.now) }
{
    let mut n: u32 = 0;
    for z in 0..32 {
        n += rows_size(deployed, z);
    }
    n
}

fn change_check(universe: &Universe, deployed: &Deployed, z: u32, q: u32, s: u32) -> u32
    ensures { result ≡ change_check (universe_in universe.now) (configuration_in deployed.now) z q s }
{
    let here = is_deployed(deployed, z);
    let so = state_of(deployed, z) == q;
    let leads = sets::member(to_of(universe, kind_of(deployed, z), q), s);
    refuse_if(!here, 60, refuse_if(!so, 62, refuse_if(!leads, 63, 0)))
}

fn bind_check(universe: &Universe, deployed: &Deployed, r: u32, z: u32, y: u32) -> u32
    ensures { result ≡ bind_check (universe_in universe.now) (configuration_in deployed.now) r z y }
{
    let requirer = is_deployed(deployed, z);
    let provider = is_deployed(deployed, y);
    let asks = may_require(universe, kind_of(deployed, z), r);
    let offers = may_provide(universe, kind_of(deployed, y), r);
    let stands = is_bound(universe, deployed, r, z, y);
    let room = bindings(deployed) < 64;
    let late = refuse_if(stands, 65, refuse_if(!room, 67, 0));
    let ports = refuse_if(!asks, 64, refuse_if(!offers, 64, late));
    refuse_if(!requirer, 60, refuse_if(!provider, 60, ports))
}

// The action's own condition.
pub(crate) fn own_check(universe: &Universe, deployed: &Deployed, step: Step) -> u32
    ensures { result ≡ check (universe_in universe.now) (configuration_in deployed.now) (action_of step) }
{
    let verb = step.verb;
    match verb {
        0 => refuse_if(is_deployed(deployed, step.first), 61, 0),
        1 => refuse_if(!is_deployed(deployed, step.first), 60, 0),
        2 => change_check(universe, deployed, step.first, step.second, step.third),
        3 => bind_check(universe, deployed, step.first, step.second, step.third),
        _ => {
            let stands = is_bound(universe, deployed, step.first, step.second, step.third);
            refuse_if(!stands, 66, 0)
        }
    }
}
