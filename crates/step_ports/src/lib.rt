// The port check 38, 34, 35, 36, on words.
// Promised: each function answers what rules_spec/specs say of the tables and the configuration that the words are.
#![tactic(auto)]

mod in_use;

ghost use Rattle.std.specs.Prelude.{◌≡◌, ◌<◌};
ghost use Rattle.model.specs.declared.Concerned.TheVariants.{NoPort, UsePort};
ghost use Rattle.model.specs.View.{instance};
ghost use Rattle.words.specs.Words.{tables_in, state_in};
ghost use Rattle.step_ports.specs.Turns.{use_refusal, port_refusal, first_refusal, is_unconnected, lowest_unconnected, ports_refusal, checked, turn_answer};

use in_use::in_use;
use model::Concerned;
use rules_spec::{PROVIDER_REFUSING, SERVICE_IN_USE, UNCONNECTED, UNSERVED, refuse_if};
use step_instance::{active, active_with, held, refusing};
use words::state::{kind, marked, provideport, provider, server_of};
use words::tables::{is_use, ports_of};
use words::{StateWords, TableWords};

// What a move takes from an instance, or gives it, or what the instance has: marks, and transitions that are held.
#[derive(Clone, Copy)]
pub struct Sets {
    pub places: u32,
    pub holds: u32,
}

// The number of the refusal, or 0, and the use port concerned.
// Not a Result: answer_at (crates/step_walk/specs/Reached) is an equation of both; a port is told with 34 and 38 alone.
#[derive(Clone, Copy)]
pub struct Answered {
    pub refused: u32,
    pub port: Concerned,
}

// Use port q of instance i is active after the move: one look at its server tells what it gets.
fn use_refusal(tables: &TableWords, state: &StateWords, i: u32, before: bool, q: u32) -> u32
    ensures { result ≡ use_refusal (tables_in tables.now) (state_in state.now) i before q }
{
    let x = server_of(state, i, q);
    if x == 0 {
        return UNCONNECTED;
    }
    let v = provider(x);
    let p = provideport(x);
    if !active(tables, state, v, p) {
        return UNSERVED;
    }
    if before {
        return 0;
    }
    refuse_if(refusing(tables, state, v, p), PROVIDER_REFUSING, 0)
}

// What port q of instance i, which is of type k, gets by itself: 36 where it becomes inactive and provides, in use or not.
fn port_refusal(
    tables: &TableWords,
    state: &StateWords,
    i: u32,
    k: u32,
    was: Sets,
    next: Sets,
    q: u32,
) -> u32
    ensures { result ≡ port_refusal (tables_in tables.now) (state_in state.now) i k was next q }
{
    let before = active_with(tables, k, was.places, was.holds, q);
    let after = active_with(tables, k, next.places, next.holds, q);
    if is_use(tables, k, q) {
        if after {
            use_refusal(tables, state, i, before, q)
        } else {
            0
        }
    } else {
        refuse_if(before & !after, SERVICE_IN_USE, 0)
    }
}

// A refusal that is about no port, and one about port q.
pub fn about_none(refused: u32) -> Answered
    ensures { result ≡ record { refused = refused; port = NoPort } }
{
    let port = Concerned::NoPort;
    Answered { refused, port }
}

fn about(refused: u32, q: u32) -> Answered
    requires { q < 256 }
    ensures { result ≡ record { refused = refused; port = UsePort q } }
{
    let port = Concerned::UsePort(q as u8);
    Answered { refused, port }
}

// All ports of instance i in one pass, where after the move it has so much, up to the first that is unconnected or unserved. Who uses the
// instance is looked up once, and only where a service ends.
fn first_refusal(tables: &TableWords, state: &StateWords, i: u32, next: Sets) -> Answered
    ensures { result ≡ first_refusal (tables_in tables.now) (state_in state.now) i next }
{
    let k = kind(state, i);
    let was = Sets {
        places: marked(state, i),
        holds: held(state, i),
    };
    let n = ports_of(tables, k);
    let mut refuses = false;
    let mut ending: u32 = 0;
    for q in 0..n {
        let x = port_refusal(tables, state, i, k, was, next, q);
        if x == UNCONNECTED {
            return about(UNCONNECTED, q);
        }
        if x == UNSERVED {
            return about(UNSERVED, q);
        }
        refuses = refuses | (x == PROVIDER_REFUSING);
        if x == SERVICE_IN_USE {
            ending = sets::with(ending, q);
        }
    }
    if refuses {
        return about_none(PROVIDER_REFUSING);
    }
    if ending == 0 {
        return about_none(0);
    }
    let used = in_use(tables, state, i);
    about_none(refuse_if(sets::overlaps(ending, used), SERVICE_IN_USE, 0))
}

// Port q of instance i, which is of type k, is a use port active after the move and has no connection.
fn is_unconnected(
    tables: &TableWords,
    state: &StateWords,
    i: u32,
    k: u32,
    next: Sets,
    q: u32,
) -> bool
    ensures { result ≡ is_unconnected (tables_in tables.now) (state_in state.now) i k next q }
{
    if is_use(tables, k, q) {
        active_with(tables, k, next.places, next.holds, q) & (server_of(state, i, q) == 0)
    } else {
        false
    }
}

// The lowest port of instance i that is unconnected, as many as there are where none is.
fn lowest_unconnected(tables: &TableWords, state: &StateWords, i: u32, next: Sets) -> u32
    ensures { result ≡ lowest_unconnected (tables_in tables.now) (state_in state.now) i next }
{
    let k = kind(state, i);
    let n = ports_of(tables, k);
    for q in 0..n {
        if is_unconnected(tables, state, i, k, next, q) {
            return q;
        }
    }
    n
}

// What the move gets, and the use port concerned. Where the first that fails is unserved a later one may be unconnected, which goes before.
fn ports_refusal(tables: &TableWords, state: &StateWords, i: u32, next: Sets) -> Answered
    ensures { result ≡ ports_refusal (tables_in tables.now) (state_in state.now) i next }
{
    let first = first_refusal(tables, state, i, next);
    if first.refused != UNSERVED {
        return first;
    }
    let n = ports_of(tables, kind(state, i));
    let low = lowest_unconnected(tables, state, i, next);
    if low < n {
        return about(UNCONNECTED, low);
    }
    first
}

// The port check of a move by which instance i loses and gains so much.
pub fn port_check(
    tables: &TableWords,
    state: &StateWords,
    i: u32,
    loses: Sets,
    gains: Sets,
) -> Answered
    ensures { result ≡ turn_answer (tables_in tables.now) (state_in state.now) i loses gains }
{
    let marks = sets::joined(sets::without(marked(state, i), loses.places), gains.places);
    let holds = sets::joined(sets::without(held(state, i), loses.holds), gains.holds);
    let next = Sets {
        places: marks,
        holds,
    };
    ports_refusal(tables, state, i, next)
}

// The port check where instance i stays as it is.
pub fn still_check(tables: &TableWords, state: &StateWords, i: u32) -> Answered
    ensures { result ≡ checked (tables_in tables.now) (state_in state.now) i (instance (state_in state.now) i) }
{
    let next = Sets {
        places: marked(state, i),
        holds: held(state, i),
    };
    ports_refusal(tables, state, i, next)
}
