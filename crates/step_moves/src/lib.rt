// The four moves on words: fire, end, enter and finish, each a check and a change made in place.
// Promised: for every tables, state and number, each check answers the number of rules_spec/specs and the use port concerned, and each change is
// that of rules_spec/specs.
#![tactic(auto)]

ghost use Rattle.std.specs.Prelude.{◌≡◌};
ghost use Rattle.model.specs.View.{instance, with_queue};
ghost use Rattle.rules_spec.specs.Closing.{closed};
ghost use Rattle.rules_spec.specs.Fire.{leavers, fire_to};
ghost use Rattle.rules_spec.specs.End.{end_check, end_to};
ghost use Rattle.rules_spec.specs.Enter.{enterers, enter_to};
ghost use Rattle.rules_spec.specs.Finish.{finish_check, finished};
ghost use Rattle.words.specs.Words.{tables_in, state_in};
ghost use Rattle.step_ports.specs.Turns.{turn_answer};
ghost use Rattle.step_moves.specs.Rows.{firstly, row, asked, fire_answer, enter_answer};

use rules_spec::{
    HELD_OR_MARKED, ID_ABSENT, NO_TRANSITION, NOT_READY, QUEUE_EMPTY, TOO_EARLY, refuse_if,
};
use step_instance::{behavior, entering, held, leaving, some_leaves};
use step_ports::{Answered, Sets, about_none, port_check};
use words::state::{
    ended, kind, marked, present, put_queued, put_sets, put_slot, queued, running, slot_at,
};
use words::{StateWords, TableWords, fewer, less};

// What every move asks first.
fn first(state: &StateWords, i: u32, rest: u32) -> u32
    ensures { result ≡ firstly (instance (state_in state.now) i) rest }
{
    refuse_if(
        !present(state, i),
        ID_ABSENT,
        refuse_if(queued(state, i) == 0, QUEUE_EMPTY, rest),
    )
}

// What fire and enter ask of the place: xs is what leaves it or leads to it.
fn row(xs: u32, ready: bool, taken: bool) -> u32
    ensures { result ≡ row xs ready taken }
{
    let late = refuse_if(taken, HELD_OR_MARKED, 0);
    refuse_if(xs == 0, NO_TRANSITION, refuse_if(!ready, NOT_READY, late))
}

// What is refused already, else the port check of what instance i loses and gains.
fn asked(
    tables: &TableWords,
    state: &StateWords,
    i: u32,
    refused: u32,
    loses: Sets,
    gains: Sets,
) -> Answered
    ensures { result ≡ asked refused
        (turn_answer (tables_in tables.now) (state_in state.now) i loses gains) }
{
    if refused != 0 {
        return about_none(refused);
    }
    port_check(tables, state, i, loses, gains)
}

// What leaves p in the current behavior of instance i, and what leads to it.
fn leavers(tables: &TableWords, state: &StateWords, i: u32, p: u32) -> u32
    ensures { result ≡ leavers (tables_in tables.now) (state_in state.now) i p }
{
    leaving(tables, kind(state, i), behavior(tables, state, i), p)
}

fn enterers(tables: &TableWords, state: &StateWords, i: u32, p: u32) -> u32
    ensures { result ≡ enterers (tables_in tables.now) (state_in state.now) i p }
{
    entering(tables, kind(state, i), behavior(tables, state, i), p)
}

pub fn fire_check(tables: &TableWords, state: &StateWords, i: u32, p: u32) -> Answered
    ensures { result ≡ fire_answer (tables_in tables.now) (state_in state.now) i p }
{
    let xs = leavers(tables, state, i, p);
    let ready = sets::member(marked(state, i), p);
    let taken = sets::overlaps(xs, held(state, i));
    let loses = Sets {
        places: sets::only(p),
        holds: 0,
    };
    let gains = Sets {
        places: 0,
        holds: xs,
    };
    let refused = first(state, i, row(xs, ready, taken));
    asked(tables, state, i, refused, loses, gains)
}

// The mark of p goes and what leaves it runs.
pub fn fire_to(tables: &TableWords, state: &mut StateWords, i: u32, p: u32)
    ensures { state_in state.new ≡ fire_to (tables_in tables.now) (state_in state.old) i p }
{
    let xs = leavers(tables, state, i, p);
    let marks = sets::without(marked(state, i), sets::only(p));
    let runs = sets::joined(running(state, i), xs);
    let ends = ended(state, i);
    put_sets(state, i, marks, runs, ends);
}

pub fn end_check(state: &StateWords, i: u32, x: u32) -> u32
    ensures { result ≡ end_check (state_in state.now) i x }
{
    let runs = sets::member(running(state, i), x);
    first(state, i, refuse_if(!runs, NOT_READY, 0))
}

pub fn end_to(state: &mut StateWords, i: u32, x: u32)
    ensures { state_in state.new ≡ end_to (state_in state.old) i x }
{
    let marks = marked(state, i);
    let runs = sets::without(running(state, i), sets::only(x));
    let ends = sets::with(ended(state, i), x);
    put_sets(state, i, marks, runs, ends);
}

pub fn enter_check(tables: &TableWords, state: &StateWords, i: u32, p: u32) -> Answered
    ensures { result ≡ enter_answer (tables_in tables.now) (state_in state.now) i p }
{
    let xs = enterers(tables, state, i, p);
    let ready = sets::within(xs, ended(state, i));
    let taken = sets::member(marked(state, i), p);
    let loses = Sets {
        places: 0,
        holds: xs,
    };
    let gains = Sets {
        places: sets::only(p),
        holds: 0,
    };
    let refused = first(state, i, row(xs, ready, taken));
    asked(tables, state, i, refused, loses, gains)
}

// What leads to p is neither running nor ended, and p is marked.
pub fn enter_to(tables: &TableWords, state: &mut StateWords, i: u32, p: u32)
    ensures { state_in state.new ≡ enter_to (tables_in tables.now) (state_in state.old) i p }
{
    let xs = enterers(tables, state, i, p);
    let marks = sets::with(marked(state, i), p);
    let runs = sets::without(running(state, i), xs);
    let ends = sets::without(ended(state, i), xs);
    put_sets(state, i, marks, runs, ends);
}

// A place that may be left counts, also where every firing would fail its ports.
pub fn finish_check(tables: &TableWords, state: &StateWords, i: u32) -> u32
    ensures { result ≡ finish_check (tables_in tables.now) (state_in state.now) i }
{
    let leaver = some_leaves(tables, state, i, true, 0);
    let busy = (held(state, i) != 0) | leaver;
    first(state, i, refuse_if(busy, TOO_EARLY, 0))
}

// The slots after `at` and before `end` move down one, and the last of them is freed. Those from `end` on stay as they are.
fn close_slots(state: &mut StateWords, at: usize, end: usize)
    ensures { state_in state.new ≡ with_queue (state_in state.old) (closed 0 (state_in state.old).queue at end) }
{
    let last = less(end, 1);
    for to in at..last {
        let x = slot_at(state, to + 1);
        put_slot(state, to, x);
    }
    put_slot(state, last, 0);
}

// The head of the queue goes.
pub fn finish_to(state: &mut StateWords, i: u32)
    ensures { state_in state.new ≡ finished (state_in state.old) i }
{
    let n = queued(state, i);
    let at = (i as usize) * 8;
    close_slots(state, at, at + n as usize);
    put_queued(state, i, fewer(n, 1));
}
