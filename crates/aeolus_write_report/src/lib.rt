// The report of the Aeolus paper: each line is written into the part of the lent buffer that is still free, and its writer answers the bytes used.
// Promised: every byte of the lent buffer and the bytes used, cut where there is no room, for every run's answer, reachable or not.
#![tactic(auto)]

ghost use Rattle.std.specs.Prelude.{◌≡◌, ◌++◌, ◌<◌};
ghost use Rattle.item_spec.specs.Write.{in_turn, three_text};
ghost use Rattle.write_items.specs.Written.{Written};
ghost use Rattle.aeolus_model.specs.Words.{universe_in, configuration_in};
ghost use Rattle.aeolus_judge_spec.specs.Report.{component_at, providers_text, bindings_at, head_part, components_part, bindings_part, report};
ghost use Rattle.aeolus_write_report.specs.Ran.{ran};
ghost use Rattle.aeolus_write_report.specs.Names.{InUse, Next};

use aeolus_correct::is_deployed;
use aeolus_model::{
    Deployed, Universe, bound_at, interfaces_of, kind_of, lists, name_of, place_of, present,
    state_of,
};
use aeolus_step::Passed;
use aeolus_step::checks::{bindings, size_of};
use write_items::{write_byte, write_key, write_number};
use write_report::write_count;

// A key and three numbers.
fn write_three(t: &mut [u8], key: &[u8], a: u32, b: u32, c: u32) -> usize
    ensures { Written t.old (key.now ++ three_text a b c) t.new 0 result }
{
    let mut at = write_key(t, 0, key);
    at = write_number(t, at, a as usize);
    at = write_byte(t, at, b',');
    at = write_number(t, at, b as usize);
    at = write_byte(t, at, b',');
    at = write_number(t, at, c as usize);
    write_byte(t, at, b'\n')
}

// component=id,type,state, nothing where it is absent
fn write_component(t: &mut [u8], deployed: &Deployed, z: u32) -> usize
    ensures { Written t.old (component_at (configuration_in deployed.now) z) t.new 0 result }
{
    if !is_deployed(deployed, z) {
        return 0;
    }
    let k = kind_of(deployed, z);
    let q = state_of(deployed, z);
    write_three(t, b"component=", z, k, q)
}

fn write_component_lines(t: &mut [u8], deployed: &Deployed) -> usize
    ensures { Written t.old (in_turn (component_at (configuration_in deployed.now)) 32) t.new 0 result }
{
    let mut used: usize = 0;
    for z in 0..32 {
        used += write_component(&mut t[used..], deployed, z);
    }
    used
}

// binding=interface,requirer,provider for each of these providers, the least of the rest at each turn
fn write_providers(t: &mut [u8], r: u32, z: u32, m: u32) -> usize
    ensures { Written t.old (providers_text 32 r z m) t.new 0 result }
{
    let mut used: usize = 0;
    let mut rest = m;
    while rest != 0 {
        let y = sets::least(rest);
        used += write_three(&mut t[used..], b"binding=", r, z, y);
        rest = sets::later(rest);
    }
    used
}

// The lines of z for the interface r.
fn write_requirer(t: &mut [u8], universe: &Universe, deployed: &Deployed, r: u32, z: u32) -> usize
    ensures { Written t.old
        (bindings_at (universe_in universe.now) (configuration_in deployed.now) r z) t.new 0 result }
{
    if !is_deployed(deployed, z) {
        return 0;
    }
    let k = kind_of(deployed, z);
    if !lists(universe, k, r) {
        return 0;
    }
    let m = bound_at(deployed, z, place_of(universe, k, r));
    write_providers(t, r, z, m)
}

fn write_requirers(t: &mut [u8], universe: &Universe, deployed: &Deployed, r: u32) -> usize
    ensures { Written t.old
        (in_turn (bindings_at (universe_in universe.now) (configuration_in deployed.now) r) 32) t.new 0 result }
{
    let mut used: usize = 0;
    for z in 0..32 {
        used += write_requirer(&mut t[used..], universe, deployed, r, z);
    }
    used
}

// The name of interface j of z, where z has bindings for it and it lies from `from` on and before `next`; else `next`.
fn nearer(universe: &Universe, deployed: &Deployed, z: u32, j: u32, from: u32, next: u32) -> u32
    ensures { Next (universe_in universe.now) (configuration_in deployed.now) from next result (λ y i. (y ≡ z) × (i ≡ j)) }
{
    if bound_at(deployed, z, j) == 0 {
        return next;
    }
    let r = name_of(universe, kind_of(deployed, z), j);
    if r < from {
        return next;
    }
    if next <= r {
        return next;
    }
    r
}

fn next_of(universe: &Universe, deployed: &Deployed, z: u32, from: u32, best: u32) -> u32
    ensures { Next (universe_in universe.now) (configuration_in deployed.now) from best result
        (λ y i. (y ≡ z) × InUse (universe_in universe.now) (configuration_in deployed.now) y i) }
{
    if !is_deployed(deployed, z) {
        return best;
    }
    let most = interfaces_of(universe, kind_of(deployed, z));
    let mut next = best;
    for j in 0..most {
        next = nearer(universe, deployed, z, j, from, next);
    }
    next
}

// The first name from `from` on for which there are bindings, 256 where there is none.
fn next_name(universe: &Universe, deployed: &Deployed, from: u32) -> u32
    ensures { Next (universe_in universe.now) (configuration_in deployed.now) from 256 result
        (λ y i. (y < 32) × InUse (universe_in universe.now) (configuration_in deployed.now) y i) }
{
    let mut next: u32 = 256;
    for z in 0..32 {
        next = next_of(universe, deployed, z, from, next);
    }
    next
}

// Only names for which there are bindings are looked at.
fn write_binding_lines(t: &mut [u8], universe: &Universe, deployed: &Deployed) -> usize
    ensures { Written t.old
        (in_turn (λ r. in_turn (bindings_at (universe_in universe.now) (configuration_in deployed.now) r) 32) 256) t.new 0 result }
{
    let mut used: usize = 0;
    let mut r = next_name(universe, deployed, 0);
    while r < 256 {
        used += write_requirers(&mut t[used..], universe, deployed, r);
        r = next_name(universe, deployed, r + 1);
    }
    used
}

// accepted=, refused=
fn write_head(t: &mut [u8], passed: Passed) -> usize
    ensures { Written t.old (head_part passed.accepted passed.refused) t.new 0 result }
{
    let used = write_count(t, b"accepted=", passed.accepted as usize);
    used + write_count(&mut t[used..], b"refused=", passed.refused as usize)
}

// components= and a line for each
fn write_components(t: &mut [u8], deployed: &Deployed) -> usize
    ensures { Written t.old (components_part (configuration_in deployed.now)) t.new 0 result }
{
    let n = size_of(present(deployed));
    let used = write_count(t, b"components=", n as usize);
    used + write_component_lines(&mut t[used..], deployed)
}

// bindings= and a line for each
fn write_bindings(t: &mut [u8], universe: &Universe, deployed: &Deployed) -> usize
    ensures { Written t.old
        (bindings_part (universe_in universe.now) (configuration_in deployed.now)) t.new 0 result }
{
    let n = bindings(deployed);
    let used = write_count(t, b"bindings=", n as usize);
    used + write_binding_lines(&mut t[used..], universe, deployed)
}

// The whole report.
pub fn write_report(t: &mut [u8], universe: &Universe, deployed: &Deployed, passed: Passed) -> usize
    ensures { Written t.old
        (report (universe_in universe.now) (ran passed (configuration_in deployed.now))) t.new 0 result }
{
    let mut used = write_head(t, passed);
    used += write_components(&mut t[used..], deployed);
    used + write_bindings(&mut t[used..], universe, deployed)
}
