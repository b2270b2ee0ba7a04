// Every type of the tables, by its rows.
ghost use Rattle.std.specs.Prelude.{◌≡◌, ◌&&◌, leb};
ghost use Rattle.sets.specs.Test.{all_below};
ghost use Rattle.read_spec.specs.Lawful.{transition_lawful, behavior_lawful, port_lawful, type_lawful};
ghost use Rattle.words.specs.Words.{tables_in};
ghost use Rattle.hall_lawful.specs.Parts.{part_lawful};

use sets::mask_ok;
use words::TableWords;
use words::tables::{
    behavior_of, behaviors_of, destination, group_places, group_transitions, initial_of, places_of,
    port_kind, ports_of, source, transitions_of,
};

// The rows that a type has.
#[derive(Clone, Copy)]
pub enum Part {
    Transition,
    Behavior,
    Port,
}

fn transition_lawful(tables: &TableWords, k: u32, x: u32) -> bool
    ensures { result ≡ transition_lawful (tables_in tables.now) k x }
{
    let from = source(tables, k, x);
    let to = destination(tables, k, x);
    let n = places_of(tables, k);
    (from < n) & ((to < n) & (from != to))
}

fn behavior_lawful(tables: &TableWords, k: u32, b: u32) -> bool
    ensures { result ≡ behavior_lawful (tables_in tables.now) k b }
{
    mask_ok(transitions_of(tables, k), behavior_of(tables, k, b))
}

fn port_lawful(tables: &TableWords, k: u32, q: u32) -> bool
    ensures { result ≡ port_lawful (tables_in tables.now) k q }
{
    let kind = port_kind(tables, k, q);
    let group = group_places(tables, k, q);
    let held = group_transitions(tables, k, q);
    let apart = !sets::overlaps(initial_of(tables, k), group);
    let places = mask_ok(places_of(tables, k), group);
    places & (mask_ok(transitions_of(tables, k), held) & ((kind <= 1) & ((kind != 1) | apart)))
}

fn part_lawful(part: Part, tables: &TableWords, k: u32, x: u32) -> bool
    ensures { result ≡ part_lawful part (tables_in tables.now) k x }
{
    match part {
        Part::Transition => transition_lawful(tables, k, x),
        Part::Behavior => behavior_lawful(tables, k, x),
        Part::Port => port_lawful(tables, k, x),
    }
}

// At most so many rows, and each of them.
fn parts_lawful(part: Part, tables: &TableWords, k: u32, n: u32, limit: u32) -> bool
    ensures { result ≡ (leb n limit && all_below n (part_lawful part (tables_in tables.now) k)) }
{
    if limit < n {
        return false;
    }
    for x in 0..n {
        if !part_lawful(part, tables, k, x) {
            return false;
        }
    }
    true
}

fn type_lawful(tables: &TableWords, k: u32) -> bool
    ensures { result ≡ type_lawful (tables_in tables.now) k }
{
    let places = places_of(tables, k);
    let initial = initial_of(tables, k);
    let within = mask_ok(places, initial);
    let transitions = parts_lawful(Part::Transition, tables, k, transitions_of(tables, k), 32);
    let behaviors = parts_lawful(Part::Behavior, tables, k, behaviors_of(tables, k), 8);
    let ports = parts_lawful(Part::Port, tables, k, ports_of(tables, k), 16);
    ((1 <= places) & (places <= 16))
        & (within & ((initial != 0) & (transitions & (behaviors & ports))))
}

pub fn types_lawful(tables: &TableWords, n: u32) -> bool
    ensures { result ≡ all_below n (type_lawful (tables_in tables.now)) }
{
    for k in 0..n {
        if !type_lawful(tables, k) {
            return false;
        }
    }
    true
}
