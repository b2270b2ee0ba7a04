// What document 003's definitions speak of, as words of lent arrays, one array for each: read and written by the names of their fields.
// Promised: each reader answers the field of what the words say by specs/Words, 0 past an array's end, and each writer changes that field alone.
#![tactic(auto)]

ghost use Rattle.std.specs.Prelude.{◌≡◌, get_or};
ghost use Rattle.aeolus_model.specs.Model.{no_universe, nothing, type_of, name_of, to_of, place_of, lists, lists_among, may_provide, may_require, number_place, number_at, kind_of, state_of, bound_at};
ghost use Rattle.aeolus_model.specs.Model.{with_count, with_states, with_initial, with_interfaces, with_provides, with_requires, with_name, with_to, with_number};
ghost use Rattle.aeolus_model.specs.Model.{with_present, with_kind, with_state, with_bound};
ghost use Rattle.aeolus_model.specs.Action.{no_plan, step_of, with_step, with_steps};
ghost use Rattle.aeolus_model.specs.Words.{universe_in, plan_in, configuration_in};

use areas::{in_area, put_in_area};
use model::put_at;

// The words of a universe, of a plan and of a configuration.
pub type Universe = [u32; 12881];

pub type Plan = [u32; 4097];

pub type Deployed = [u32; 577];

// 0 new,id,type; 1 del,id; 2 change,id,from,to; 3 bind,interface,requirer,provider; 4 unbind, the same three.
#[derive(Clone, Copy)]
pub struct Step {
    pub verb: u32,
    pub first: u32,
    pub second: u32,
    pub third: u32,
}

// ---- a universe

pub fn types(universe: &Universe) -> u32
    ensures { result ≡ (universe_in universe.now).count }
{
    universe[12880]
}

pub fn states_of(universe: &Universe, k: u32) -> u32
    ensures { result ≡ (type_of (universe_in universe.now) k).states }
{
    in_area(universe, 0, 16, k as usize)
}

pub fn initial_of(universe: &Universe, k: u32) -> u32
    ensures { result ≡ (type_of (universe_in universe.now) k).initial }
{
    in_area(universe, 16, 16, k as usize)
}

pub fn interfaces_of(universe: &Universe, k: u32) -> u32
    ensures { result ≡ (type_of (universe_in universe.now) k).interfaces }
{
    in_area(universe, 32, 16, k as usize)
}

pub fn provides_of(universe: &Universe, k: u32) -> u32
    ensures { result ≡ (type_of (universe_in universe.now) k).provides }
{
    in_area(universe, 48, 16, k as usize)
}

pub fn requires_of(universe: &Universe, k: u32) -> u32
    ensures { result ≡ (type_of (universe_in universe.now) k).requires }
{
    in_area(universe, 64, 16, k as usize)
}

pub fn name_of(universe: &Universe, k: u32, j: u32) -> u32
    ensures { result ≡ name_of (universe_in universe.now) k j }
{
    in_area(universe, 80, 256, (k as usize) * 16 + j as usize)
}

pub fn to_of(universe: &Universe, k: u32, q: u32) -> u32
    ensures { result ≡ to_of (universe_in universe.now) k q }
{
    in_area(universe, 336, 256, (k as usize) * 16 + q as usize)
}

// Where the number of an interface stands among those of all types, states and maps.
fn number_place(k: u32, q: u32, m: u32, j: u32) -> usize
    ensures { result ≡ number_place k q m j }
{
    (((k as usize) * 16 + q as usize) * 3 + m as usize) * 16 + j as usize
}

// One more than the number; 0 where the interface is not active.
pub fn number_at(universe: &Universe, k: u32, q: u32, m: u32, j: u32) -> u32
    ensures { result ≡ number_at (universe_in universe.now) k q m j }
{
    in_area(universe, 592, 12288, number_place(k, q, m, j))
}

// Where type k lists the interface r, and how many interfaces it has where it does not.
pub fn place_of(universe: &Universe, k: u32, r: u32) -> u32
    ensures { result ≡ place_of (universe_in universe.now) k r }
{
    let most = interfaces_of(universe, k);
    for j in 0..most {
        if name_of(universe, k, j) == r {
            return j;
        }
    }
    most
}

pub fn lists(universe: &Universe, k: u32, r: u32) -> bool
    ensures { result ≡ lists (universe_in universe.now) k r }
{
    place_of(universe, k, r) < interfaces_of(universe, k)
}

// The same, where the place is of a set.
fn lists_among(universe: &Universe, k: u32, r: u32, m: u32) -> bool
    ensures { result ≡ lists_among (universe_in universe.now) k r m }
{
    let place = place_of(universe, k, r);
    lists(universe, k, r) && sets::member(m, place)
}

pub fn may_provide(universe: &Universe, k: u32, r: u32) -> bool
    ensures { result ≡ may_provide (universe_in universe.now) k r }
{
    lists_among(universe, k, r, provides_of(universe, k))
}

pub fn may_require(universe: &Universe, k: u32, r: u32) -> bool
    ensures { result ≡ may_require (universe_in universe.now) k r }
{
    lists_among(universe, k, r, requires_of(universe, k))
}

pub fn clear_universe(universe: &mut Universe)
    ensures { universe_in universe.new ≡ no_universe }
{
    *universe = [0u32; 12881];
}

pub fn put_types(universe: &mut Universe, n: u32)
    ensures { universe_in universe.new ≡ with_count (universe_in universe.old) n }
{
    put_at(universe, 12880, n);
}

pub fn put_states(universe: &mut Universe, k: u32, n: u32)
    ensures { universe_in universe.new ≡ with_states (universe_in universe.old) k n }
{
    put_in_area(universe, 0, 16, k as usize, n);
}

pub fn put_initial(universe: &mut Universe, k: u32, q: u32)
    ensures { universe_in universe.new ≡ with_initial (universe_in universe.old) k q }
{
    put_in_area(universe, 16, 16, k as usize, q);
}

pub fn put_interfaces(universe: &mut Universe, k: u32, n: u32)
    ensures { universe_in universe.new ≡ with_interfaces (universe_in universe.old) k n }
{
    put_in_area(universe, 32, 16, k as usize, n);
}

pub fn put_provides(universe: &mut Universe, k: u32, m: u32)
    ensures { universe_in universe.new ≡ with_provides (universe_in universe.old) k m }
{
    put_in_area(universe, 48, 16, k as usize, m);
}

pub fn put_requires(universe: &mut Universe, k: u32, m: u32)
    ensures { universe_in universe.new ≡ with_requires (universe_in universe.old) k m }
{
    put_in_area(universe, 64, 16, k as usize, m);
}

pub fn put_name(universe: &mut Universe, k: u32, j: u32, name: u32)
    ensures { universe_in universe.new ≡ with_name (universe_in universe.old) k j name }
{
    put_in_area(universe, 80, 256, (k as usize) * 16 + j as usize, name);
}

pub fn put_to(universe: &mut Universe, k: u32, q: u32, states: u32)
    ensures { universe_in universe.new ≡ with_to (universe_in universe.old) k q states }
{
    put_in_area(universe, 336, 256, (k as usize) * 16 + q as usize, states);
}

pub fn put_number(universe: &mut Universe, k: u32, q: u32, m: u32, j: u32, x: u32)
    ensures { universe_in universe.new ≡ with_number (universe_in universe.old) k q m j x }
{
    put_in_area(universe, 592, 12288, number_place(k, q, m, j), x);
}

// ---- a plan

pub fn steps(plan: &Plan) -> u32
    ensures { result ≡ (plan_in plan.now).count }
{
    plan[4096]
}

pub fn step_at(plan: &Plan, n: usize) -> Step
    ensures { result ≡ step_of (plan_in plan.now) n }
{
    let verb = in_area(plan, 0, 1024, n);
    let first = in_area(plan, 1024, 1024, n);
    let second = in_area(plan, 2048, 1024, n);
    let third = in_area(plan, 3072, 1024, n);
    Step {
        verb,
        first,
        second,
        third,
    }
}

// A function for each array and field here, as in `words`: each is public with a promise of its own (docs/PROMISES.md) over what `areas` does once.
pub fn clear_plan(plan: &mut Plan)
    ensures { plan_in plan.new ≡ no_plan }
{
    *plan = [0u32; 4097];
}

pub fn put_steps(plan: &mut Plan, n: u32)
    ensures { plan_in plan.new ≡ with_steps (plan_in plan.old) n }
{
    put_at(plan, 4096, n);
}

pub fn put_step(plan: &mut Plan, n: usize, step: Step)
    ensures { plan_in plan.new ≡ with_step (plan_in plan.old) n step }
{
    put_in_area(plan, 0, 1024, n, step.verb);
    put_in_area(plan, 1024, 1024, n, step.first);
    put_in_area(plan, 2048, 1024, n, step.second);
    put_in_area(plan, 3072, 1024, n, step.third);
}

// ---- a configuration

pub fn present(deployed: &Deployed) -> u32
    ensures { result ≡ (configuration_in deployed.now).present }
{
    deployed[576]
}

pub fn kind_of(deployed: &Deployed, z: u32) -> u32
    ensures { result ≡ kind_of (configuration_in deployed.now) z }
{
    in_area(deployed, 0, 32, z as usize)
}

pub fn state_of(deployed: &Deployed, z: u32) -> u32
    ensures { result ≡ state_of (configuration_in deployed.now) z }
{
    in_area(deployed, 32, 32, z as usize)
}

// Row n of the bindings: row z * 16 + j has the providers of z for its interface j.
pub fn bound_row(deployed: &Deployed, n: usize) -> u32
    ensures { result ≡ get_or (configuration_in deployed.now).bound n 0 }
{
    in_area(deployed, 64, 512, n)
}

pub fn bound_at(deployed: &Deployed, z: u32, j: u32) -> u32
    ensures { result ≡ bound_at (configuration_in deployed.now) z j }
{
    bound_row(deployed, (z as usize) * 16 + j as usize)
}

pub fn clear_deployed(deployed: &mut Deployed)
    ensures { configuration_in deployed.new ≡ nothing }
{
    *deployed = [0u32; 577];
}

pub fn put_present(deployed: &mut Deployed, m: u32)
    ensures { configuration_in deployed.new ≡ with_present (configuration_in deployed.old) m }
{
    put_at(deployed, 576, m);
}

pub fn put_kind(deployed: &mut Deployed, z: u32, k: u32)
    ensures { configuration_in deployed.new ≡ with_kind (configuration_in deployed.old) z k }
{
    put_in_area(deployed, 0, 32, z as usize, k);
}

pub fn put_state(deployed: &mut Deployed, z: u32, q: u32)
    ensures { configuration_in deployed.new ≡ with_state (configuration_in deployed.old) z q }
{
    put_in_area(deployed, 32, 32, z as usize, q);
}

pub fn put_bound(deployed: &mut Deployed, n: usize, providers: u32)
    ensures { configuration_in deployed.new ≡ with_bound (configuration_in deployed.old) n providers }
{
    put_in_area(deployed, 64, 512, n, providers);
}
