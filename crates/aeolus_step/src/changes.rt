// What the actions do, in place on lent words.
// Promised: each change is that of aeolus_rules_spec/specs.
ghost use Rattle.std.specs.Prelude.{◌≡◌, cond, ◌+◌, ◌*◌, ◌/◌, eqb};
ghost use Rattle.sets.specs.Mask.{without, only};
ghost use Rattle.aeolus_model.specs.Model.{place_of, kind_of};
ghost use Rattle.aeolus_model.specs.Action.{action_of};
ghost use Rattle.aeolus_model.specs.Words.{universe_in, configuration_in};
ghost use Rattle.aeolus_rules_spec.specs.New.{added};
ghost use Rattle.aeolus_rules_spec.specs.Del.{freed, deleted};
ghost use Rattle.aeolus_rules_spec.specs.Bind.{joined};
ghost use Rattle.aeolus_rules_spec.specs.Unbind.{parted};
ghost use Rattle.aeolus_rules_spec.specs.Action.{effect};
ghost use Rattle.aeolus_step.specs.Freed.{with_rows, freed_at};

use aeolus_model::{
    Deployed, Step, Universe, bound_row, initial_of, kind_of, place_of, present, put_bound,
    put_kind, put_present, put_state,
};

fn add_to(universe: &Universe, deployed: &mut Deployed, z: u32, k: u32)
    ensures { configuration_in deployed.new
        ≡ added (universe_in universe.now) (configuration_in deployed.old) z k }
{
    let first = initial_of(universe, k);
    let here = sets::with(present(deployed), z);
    put_present(deployed, here);
    put_kind(deployed, z, k);
    put_state(deployed, z, first);
}

// What is left of row n of the bindings, the set m, where z neither requires nor provides any more.
fn left_of(m: u32, z: u32, n: usize) -> u32
    ensures { result ≡ cond (eqb (n / 16) z) 0 (without m (only z)) }
{
    if n / 16 == z as usize {
        return 0;
    }
    sets::without(m, sets::only(z))
}

fn free_row(deployed: &mut Deployed, z: u32, n: usize)
    ensures { configuration_in deployed.new
        ≡ with_rows (configuration_in deployed.old) (freed_at z (configuration_in deployed.old).bound n) }
{
    let m = left_of(bound_row(deployed, n), z, n);
    put_bound(deployed, n, m);
}

fn free_rows(deployed: &mut Deployed, z: u32)
    ensures { configuration_in deployed.new
        ≡ with_rows (configuration_in deployed.old) (freed z 0 (configuration_in deployed.old).bound) }
{
    for n in 0..512 {
        free_row(deployed, z, n);
    }
}

fn delete_to(deployed: &mut Deployed, z: u32)
    ensures { configuration_in deployed.new ≡ deleted (configuration_in deployed.old) z }
{
    let here = sets::without(present(deployed), sets::only(z));
    put_present(deployed, here);
    put_kind(deployed, z, 0);
    put_state(deployed, z, 0);
    free_rows(deployed, z);
}

// The row of the bindings of z for r.
fn row_of(universe: &Universe, deployed: &Deployed, r: u32, z: u32) -> usize
    ensures { result ≡ z * 16 + place_of (universe_in universe.now) (kind_of (configuration_in deployed.now) z) r }
{
    (z as usize) * 16 + place_of(universe, kind_of(deployed, z), r) as usize
}

fn bind_to(universe: &Universe, deployed: &mut Deployed, r: u32, z: u32, y: u32)
    ensures { configuration_in deployed.new
        ≡ joined (universe_in universe.now) (configuration_in deployed.old) r z y }
{
    let n = row_of(universe, deployed, r, z);
    let m = sets::with(bound_row(deployed, n), y);
    put_bound(deployed, n, m);
}

fn unbind_to(universe: &Universe, deployed: &mut Deployed, r: u32, z: u32, y: u32)
    ensures { configuration_in deployed.new
        ≡ parted (universe_in universe.now) (configuration_in deployed.old) r z y }
{
    let n = row_of(universe, deployed, r, z);
    let m = sets::without(bound_row(deployed, n), sets::only(y));
    put_bound(deployed, n, m);
}

pub(crate) fn carry_out(universe: &Universe, deployed: &mut Deployed, step: Step)
    ensures { configuration_in deployed.new
        ≡ effect (universe_in universe.now) (configuration_in deployed.old) (action_of step) }
{
    let verb = step.verb;
    match verb {
        0 => add_to(universe, deployed, step.first, step.second),
        1 => delete_to(deployed, step.first),
        2 => put_state(deployed, step.first, step.third),
        3 => bind_to(universe, deployed, step.first, step.second, step.third),
        _ => unbind_to(universe, deployed, step.first, step.second, step.third),
    }
}
