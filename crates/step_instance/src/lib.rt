// One instance by itself: what is held, which ports are active, what leaves and enters a place, which ports refuse.
// Promised: each function answers what rules_spec/specs say of the tables and the configuration that the words are.
#![tactic(auto)]

ghost use Rattle.std.specs.Prelude.{◌≡◌};
ghost use Rattle.sets.specs.Test.{any_below};
ghost use Rattle.sets.specs.Mask.{collect};
ghost use Rattle.model.specs.View.{instance};
ghost use Rattle.rules_spec.specs.Instance.{held, active, ends_at, leaving, entering};
ghost use Rattle.rules_spec.specs.Ports.{behavior, would_enter};
ghost use Rattle.words.specs.Words.{tables_in, state_in};
ghost use Rattle.step_instance.specs.Alone.{end_of, active_with, leaves_by, some_leaves, refusing_at};

use words::state::{ended, kind, marked, queued, running, slot};
use words::tables::{behavior_of, destination, group_places, group_transitions, source};
use words::{StateWords, TableWords};

// Where transition x of type k leaves, or where it leads.
fn end_of(tables: &TableWords, out: bool, k: u32, x: u32) -> u32
    ensures { result ≡ end_of (tables_in tables.now) out k x }
{
    if out {
        source(tables, k, x)
    } else {
        destination(tables, k, x)
    }
}

// The transitions of the set m of type k that leave p, or that lead to it.
fn ending_at(tables: &TableWords, out: bool, k: u32, m: u32, p: u32) -> u32
    ensures { result ≡ collect 32 (ends_at (end_of (tables_in tables.now) out k) m p) }
{
    let mut xs: u32 = 0;
    let mut rest = m;
    while rest != 0 {
        let x = sets::least(rest);
        if end_of(tables, out, k, x) == p {
            xs = sets::with(xs, x);
        }
        rest = sets::later(rest);
    }
    xs
}

pub fn leaving(tables: &TableWords, k: u32, m: u32, p: u32) -> u32
    ensures { result ≡ leaving (tables_in tables.now) k m p }
{
    ending_at(tables, true, k, m, p)
}

pub fn entering(tables: &TableWords, k: u32, m: u32, p: u32) -> u32
    ensures { result ≡ entering (tables_in tables.now) k m p }
{
    ending_at(tables, false, k, m, p)
}

pub fn held(state: &StateWords, i: u32) -> u32
    ensures { result ≡ held (instance (state_in state.now) i) }
{
    sets::joined(running(state, i), ended(state, i))
}

// Port q of an instance of type k is active, where these places are marked and these transitions held.
pub fn active_with(tables: &TableWords, k: u32, marks: u32, holds: u32, q: u32) -> bool
    ensures { result ≡ active_with (tables_in tables.now) k marks holds q }
{
    sets::overlaps(marks, group_places(tables, k, q))
        | sets::overlaps(holds, group_transitions(tables, k, q))
}

pub fn active(tables: &TableWords, state: &StateWords, i: u32, q: u32) -> bool
    ensures { result ≡ active (tables_in tables.now) (instance (state_in state.now) i) q }
{
    active_with(tables, kind(state, i), marked(state, i), held(state, i), q)
}

// The current behavior of instance i: a set of transitions, none where its queue is empty.
pub fn behavior(tables: &TableWords, state: &StateWords, i: u32) -> u32
    ensures { result ≡ behavior (tables_in tables.now) (state_in state.now) i }
{
    if queued(state, i) == 0 {
        return 0;
    }
    behavior_of(tables, kind(state, i), slot(state, i, 0) % 8)
}

// The marked place p may be left: some transition leaves it. Where not any such place counts, none of these is held, and firing it would
// make port q inactive.
fn would_leave(
    tables: &TableWords,
    state: &StateWords,
    i: u32,
    m: u32,
    any: bool,
    q: u32,
    p: u32,
) -> bool
    ensures { result ≡ leaves_by (tables_in tables.now) (instance (state_in state.now) i) m any q p }
{
    if 16 <= p {
        return false;
    }
    let k = kind(state, i);
    let xs = leaving(tables, k, m, p);
    if xs == 0 {
        return false;
    }
    let free = !sets::overlaps(xs, held(state, i));
    let marks = sets::without(marked(state, i), sets::only(p));
    let runs = sets::joined(running(state, i), xs);
    let holds = sets::joined(runs, ended(state, i));
    any | (free & !active_with(tables, k, marks, holds, q))
}

// The unmarked place p could be entered by tokens alone, and entering it would make port q inactive.
fn would_enter(tables: &TableWords, state: &StateWords, i: u32, m: u32, q: u32, p: u32) -> bool
    ensures { result ≡ would_enter (tables_in tables.now) (instance (state_in state.now) i) m q p }
{
    let k = kind(state, i);
    let xs = entering(tables, k, m, p);
    if xs == 0 {
        return false;
    }
    let ends = ended(state, i);
    let marks = marked(state, i);
    let ready = sets::within(xs, ends);
    let free = !sets::member(marks, p);
    let runs = sets::without(running(state, i), xs);
    let holds = sets::joined(runs, sets::without(ends, xs));
    ready & (free & !active_with(tables, k, sets::with(marks, p), holds, q))
}

// Some place may be left so: any, or one whose leaving would make port q inactive.
pub fn some_leaves(tables: &TableWords, state: &StateWords, i: u32, any: bool, q: u32) -> bool
    ensures { result ≡ some_leaves (tables_in tables.now) (state_in state.now) i any q }
{
    let m = behavior(tables, state, i);
    let mut rest = marked(state, i);
    while rest != 0 {
        if would_leave(tables, state, i, m, any, q, sets::least(rest)) {
            return true;
        }
        rest = sets::later(rest);
    }
    false
}

// Some place would be entered so.
fn some_enters(tables: &TableWords, state: &StateWords, i: u32, m: u32, q: u32) -> bool
    ensures { result ≡ any_below 16 (would_enter (tables_in tables.now) (instance (state_in state.now) i) m q) }
{
    (0..16).any(|p| would_enter(tables, state, i, m, q, p))
}

// Provide port q of instance i refuses. Where no transition has ended no place can be entered, so that few look at the places twice.
pub fn refusing(tables: &TableWords, state: &StateWords, i: u32, q: u32) -> bool
    ensures { result ≡ refusing_at (tables_in tables.now) (state_in state.now) i q }
{
    if !active(tables, state, i, q) {
        return false;
    }
    if some_leaves(tables, state, i, false, q) {
        return true;
    }
    if ended(state, i) == 0 {
        return false;
    }
    some_enters(tables, state, i, behavior(tables, state, i), q)
}
