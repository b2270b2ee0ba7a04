// Definition 3 of the Aeolus paper on lent words: what is deployed, active and bound, and what the maps ask of all components.
// Promised: each function answers the definition of its name in aeolus_rules_spec/specs, for any words.
#![tactic(auto)]

ghost use Rattle.std.specs.Prelude.{◌≡◌, not, ◌&&◌, ◌||◌, ℕ, ◌<◌, eqb, get_or};
ghost use Rattle.sets.specs.Test.{all_below, tally};
ghost use Rattle.sets.specs.Mask.{member, collect};
ghost use Rattle.aeolus_model.specs.Model.{type_of, kind_of, deployed as is_deployed, number_at, is_active, weak, strong, bound};
ghost use Rattle.aeolus_model.specs.Words.{universe_in, configuration_in};
ghost use Rattle.aeolus_rules_spec.specs.Correct.{provides, employs, required, provided, asked, port_holds, holds};
ghost use Rattle.aeolus_rules_spec.specs.Action.{reached_check};
ghost use Rattle.aeolus_rules_spec.specs.Run.{last_check};
ghost use Rattle.aeolus_correct.specs.Tests.{passes};
ghost use Rattle.aeolus_correct.specs.Users.{targets_of, Targets, Used, Users};

use aeolus_model::{
    Deployed, Universe, bound_at, interfaces_of, kind_of, name_of, number_at, place_of, present,
    state_of,
};
use rules_spec::refuse_if;

// What is counted among the components other than one: those that provide an interface now, and those that require it of that one now.
#[derive(Clone, Copy)]
pub enum Test {
    Provides,
    Employs,
}

pub fn is_deployed(deployed: &Deployed, z: u32) -> bool
    ensures { result ≡ is_deployed (configuration_in deployed.now) z }
{
    sets::member(present(deployed), z)
}

fn is_active(universe: &Universe, deployed: &Deployed, m: u32, z: u32, r: u32) -> bool
    ensures { result ≡ is_active (universe_in universe.now) (configuration_in deployed.now) m z r }
{
    let k = kind_of(deployed, z);
    let j = place_of(universe, k, r);
    j < interfaces_of(universe, k) && number_at(universe, k, state_of(deployed, z), m, j) != 0
}

// Those to which z is bound for r.
fn providers_of(universe: &Universe, deployed: &Deployed, r: u32, z: u32) -> u32
    ensures { (y : ℕ) → member y result ≡ bound (universe_in universe.now) (configuration_in deployed.now) r z y }
{
    let k = kind_of(deployed, z);
    let j = place_of(universe, k, r);
    if !is_deployed(deployed, z) {
        return 0;
    }
    if interfaces_of(universe, k) <= j {
        return 0;
    }
    bound_at(deployed, z, j)
}

pub fn is_bound(universe: &Universe, deployed: &Deployed, r: u32, z: u32, y: u32) -> bool
    ensures { result ≡ bound (universe_in universe.now) (configuration_in deployed.now) r z y }
{
    sets::member(providers_of(universe, deployed, r, z), y)
}

// y is deployed, and is not z.
fn is_other(deployed: &Deployed, z: u32, y: u32) -> bool
    ensures { result ≡ (not (eqb y z) && is_deployed (configuration_in deployed.now) y) }
{
    y != z && is_deployed(deployed, y)
}

fn provides(universe: &Universe, deployed: &Deployed, r: u32, z: u32, y: u32) -> bool
    ensures { result ≡ provides (universe_in universe.now) (configuration_in deployed.now) r z y }
{
    is_other(deployed, z, y) && is_active(universe, deployed, 0, y, r)
}

// Interface j of type k is active in state q, weakly or strongly.
fn demands(universe: &Universe, k: u32, q: u32, j: u32) -> bool
    ensures { result ≡ (not (eqb (number_at (universe_in universe.now) k q weak j) 0)
        || not (eqb (number_at (universe_in universe.now) k q strong j) 0)) }
{
    number_at(universe, k, q, 1, j) != 0 || number_at(universe, k, q, 2, j) != 0
}

fn employs(universe: &Universe, deployed: &Deployed, p: u32, z: u32, y: u32) -> bool
    ensures { result ≡ employs (universe_in universe.now) (configuration_in deployed.now) p z y }
{
    let k = kind_of(deployed, y);
    let j = place_of(universe, k, p);
    is_other(deployed, z, y)
        && (j < interfaces_of(universe, k)
            && (sets::member(bound_at(deployed, y, j), z)
                && demands(universe, k, state_of(deployed, y), j)))
}

fn passes(test: Test, universe: &Universe, deployed: &Deployed, r: u32, z: u32, y: u32) -> bool
    ensures { result ≡ passes test (universe_in universe.now) (configuration_in deployed.now) r z y }
{
    match test {
        Test::Provides => provides(universe, deployed, r, z, y),
        Test::Employs => employs(universe, deployed, r, z, y),
    }
}

// How many components of a set pass.
fn count(test: Test, universe: &Universe, deployed: &Deployed, r: u32, z: u32, among: u32) -> u32
    ensures { result ≡ tally 32 (λ y. member y among
        && passes test (universe_in universe.now) (configuration_in deployed.now) r z y) }
{
    let mut n: u32 = 0;
    let mut rest = among;
    while rest != 0 {
        if passes(test, universe, deployed, r, z, sets::least(rest)) {
            n += 1;
        }
        rest = sets::later(rest);
    }
    n
}

// A demand of number 0 is a conflict.
fn required(universe: &Universe, deployed: &Deployed, z: u32, r: u32, n: u32) -> bool
    ensures { result ≡ required (universe_in universe.now) (configuration_in deployed.now) z r n }
{
    if n == 0 {
        return count(Test::Provides, universe, deployed, r, z, present(deployed)) == 0;
    }
    let among = providers_of(universe, deployed, r, z);
    n <= count(Test::Provides, universe, deployed, r, z, among)
}

fn provided(universe: &Universe, deployed: &Deployed, z: u32, p: u32, n: u32, users: u32) -> bool
    requires { Users (universe_in universe.now) (configuration_in deployed.now) z users }
    ensures { result ≡ provided (universe_in universe.now) (configuration_in deployed.now) z p n }
{
    count(Test::Employs, universe, deployed, p, z, users) <= n
}

// What a map asks of an interface; x is one more than its number, 0 where it is not active.
fn asked(universe: &Universe, deployed: &Deployed, m: u32, z: u32, r: u32, x: u32, who: u32) -> bool
    requires { m ≡ 0 → Users (universe_in universe.now) (configuration_in deployed.now) z who }
    ensures { result ≡ asked (universe_in universe.now) (configuration_in deployed.now) m z r x }
{
    if x == 0 {
        return true;
    }
    if m == 0 {
        return provided(universe, deployed, z, r, x - 1, who);
    }
    required(universe, deployed, z, r, x - 1)
}

fn port_holds(universe: &Universe, deployed: &Deployed, m: u32, z: u32, j: u32, users: u32) -> bool
    requires { m ≡ 0 → Users (universe_in universe.now) (configuration_in deployed.now) z users }
    ensures { result ≡ port_holds (universe_in universe.now) (configuration_in deployed.now) m z j }
{
    let k = kind_of(deployed, z);
    let r = name_of(universe, k, j);
    let x = number_at(universe, k, state_of(deployed, z), m, j);
    asked(universe, deployed, m, z, r, x, users)
}

fn ports_hold(universe: &Universe, deployed: &Deployed, m: u32, z: u32, users: u32) -> bool
    requires { m ≡ 0 → Users (universe_in universe.now) (configuration_in deployed.now) z users }
    ensures { result ≡ all_below (type_of (universe_in universe.now) (kind_of (configuration_in deployed.now) z)).interfaces
        (port_holds (universe_in universe.now) (configuration_in deployed.now) m z) }
{
    let n = interfaces_of(universe, kind_of(deployed, z));
    for j in 0..n {
        if !port_holds(universe, deployed, m, z, j, users) {
            return false;
        }
    }
    true
}

// The components to which y is bound for any interface.
fn targets_of(universe: &Universe, deployed: &Deployed, y: u32) -> u32
    ensures { result ≡ targets_of (universe_in universe.now) (configuration_in deployed.now) y }
{
    let n = interfaces_of(universe, kind_of(deployed, y));
    let mut all: u32 = 0;
    for j in 0..n {
        all = sets::joined(all, bound_at(deployed, y, j));
    }
    all
}

// A set for each component.
type Sets = [u32; 32];

// The targets of each deployed component, and all of them.
#[derive(Clone, Copy)]
struct Reach {
    targets: Sets,
    used: u32,
}

// Only provisions ask for it.
fn reach_of(universe: &Universe, deployed: &Deployed, m: u32) -> Reach
    ensures { m ≡ 0 → Targets (universe_in universe.now) (configuration_in deployed.now) result.targets
        × Used (universe_in universe.now) (configuration_in deployed.now) result.used }
{
    let mut targets = [0u32; 32];
    let mut used: u32 = 0;
    if m != 0 {
        return Reach { targets, used };
    }
    let mut rest = present(deployed);
    while rest != 0 {
        let y = sets::least(rest);
        let own = targets_of(universe, deployed, y);
        targets[y as usize] = own;
        used = sets::joined(used, own);
        rest = sets::later(rest);
    }
    Reach { targets, used }
}

// Of whom the map m can ask anything: provisions only of those that are used.
fn asked_of(deployed: &Deployed, m: u32, used: u32) -> u32
    ensures { (z : ℕ) → z < 32
        → member z result ≡ (is_deployed (configuration_in deployed.now) z && (not (eqb m 0) || member z used)) }
{
    let all = present(deployed);
    if m != 0 {
        return all;
    }
    sets::without(all, sets::without(all, used))
}

// The deployed components that have z as a target. Only provisions ask for them.
fn users_of(deployed: &Deployed, targets: &Sets, m: u32, z: u32) -> u32
    ensures { m ≡ 0
        → result ≡ collect 32 (λ y. is_deployed (configuration_in deployed.now) y && member z (get_or targets.now y 0)) }
{
    if m != 0 {
        return 0;
    }
    let all = present(deployed);
    let mut users: u32 = 0;
    let mut rest = all;
    while rest != 0 {
        let y = sets::least(rest);
        if sets::member(targets[y as usize], z) {
            users = sets::with(users, y);
        }
        rest = sets::later(rest);
    }
    users
}

fn component_holds(universe: &Universe, deployed: &Deployed, m: u32, z: u32, targets: &Sets) -> bool
    requires { (z < 32) × (m ≡ 0 → Targets (universe_in universe.now) (configuration_in deployed.now) targets.now) }
    ensures { result ≡ all_below (type_of (universe_in universe.now) (kind_of (configuration_in deployed.now) z)).interfaces
        (port_holds (universe_in universe.now) (configuration_in deployed.now) m z) }
{
    ports_hold(universe, deployed, m, z, users_of(deployed, targets, m, z))
}

// What the map m asks of all components holds.
fn holds(universe: &Universe, deployed: &Deployed, m: u32) -> bool
    ensures { result ≡ holds (universe_in universe.now) (configuration_in deployed.now) m }
{
    let reach = reach_of(universe, deployed, m);
    let targets = reach.targets;
    let mut rest = asked_of(deployed, m, reach.used);
    while rest != 0 {
        if !component_holds(universe, deployed, m, sets::least(rest), &targets) {
            return false;
        }
        rest = sets::later(rest);
    }
    true
}

// 68 over all components before 69.
pub fn reached_check(universe: &Universe, deployed: &Deployed) -> u32
    ensures { result ≡ reached_check (universe_in universe.now) (configuration_in deployed.now) }
{
    let provided = holds(universe, deployed, 0);
    let met = holds(universe, deployed, 2);
    refuse_if(!provided, 68, refuse_if(!met, 69, 0))
}

pub fn last_check(universe: &Universe, deployed: &Deployed) -> u32
    ensures { result ≡ last_check (universe_in universe.now) (configuration_in deployed.now) }
{
    refuse_if(!holds(universe, deployed, 1), 70, 0)
}
