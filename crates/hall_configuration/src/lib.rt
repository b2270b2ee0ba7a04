// The tests behind number 7 on a lent configuration: every present instance, and every use port, present or not.
// Promised: each answers its definition (specs/Lawful) for all that can be lent; what is past a count is not looked at.
#![tactic(auto)]

ghost use Rattle.std.specs.Prelude.{◌≡◌};
ghost use Rattle.sets.specs.Test.{all_below};
ghost use Rattle.model.specs.View.{server};
ghost use Rattle.words.specs.Words.{tables_in, program_in, state_in};
ghost use Rattle.words.specs.Parts.{connection_of_words};
ghost use Rattle.hall_configuration.specs.Parts.{queue_lawful};
ghost use Rattle.hall_configuration.specs.Lawful.{queued_lawful, numbers_lawful, instance_lawful, ends_lawful, connection_lawful, connections_lawful, configuration_lawful};

use sets::mask_ok;
use step_instructions::{depth_of, is_port};
use words::program::instructions;
use words::state::{
    done, ended, entries, kind, marked, present, provideport, provider, queued, running, server,
    slot,
};
use words::tables::{behaviors_of, places_of, transitions_of, types};
use words::{ProgramWords, StateWords, TableWords};

fn queued_lawful(tables: &TableWords, state: &StateWords, i: u32, r: u32) -> bool
    ensures { result ≡ queued_lawful (tables_in tables.now) (state_in state.now) i r }
{
    slot(state, i, r) < behaviors_of(tables, kind(state, i))
}

// The slots within the queue alone: what it had before is not looked at.
fn queue_lawful(default: u32, tables: &TableWords, state: &StateWords, i: u32) -> bool
    ensures { result ≡ queue_lawful default (tables_in tables.now) (state_in state.now) i }
{
    let n = queued(state, i);
    if depth_of(default, tables) < n {
        return false;
    }
    for r in 0..n {
        if !queued_lawful(tables, state, i, r) {
            return false;
        }
    }
    true
}

fn numbers_lawful(default: u32, tables: &TableWords, state: &StateWords, i: u32) -> bool
    ensures { result ≡ numbers_lawful default (tables_in tables.now) (state_in state.now) i }
{
    let k = kind(state, i);
    let marks = mask_ok(places_of(tables, k), marked(state, i));
    let n = transitions_of(tables, k);
    let runs = mask_ok(n, running(state, i));
    let ends = mask_ok(n, ended(state, i));
    let queue = queue_lawful(default, tables, state, i);
    (k < types(tables)) & (marks & (runs & (ends & queue)))
}

fn instance_lawful(default: u32, tables: &TableWords, state: &StateWords, i: u32) -> bool
    ensures { result ≡ instance_lawful default (tables_in tables.now) (state_in state.now) i }
{
    if !present(state, i) {
        return true;
    }
    numbers_lawful(default, tables, state, i)
}

fn instances_lawful(default: u32, tables: &TableWords, state: &StateWords) -> bool
    ensures { result ≡ all_below 32 (instance_lawful default (tables_in tables.now) (state_in state.now)) }
{
    for i in 0..32 {
        if !instance_lawful(default, tables, state, i) {
            return false;
        }
    }
    true
}

fn ends_lawful(tables: &TableWords, state: &StateWords, u: u32, uq: u32, v: u32, vq: u32) -> bool
    ensures { result ≡ ends_lawful (tables_in tables.now) (state_in state.now) (connection_of_words u uq v vq) }
{
    let user = present(state, u);
    let provider = present(state, v);
    let uses = is_port(tables, state, u, uq, true);
    let provides = is_port(tables, state, v, vq, false);
    user & (provider & (uses & (provides & (u != v))))
}

// A use port that nobody serves is lawful, whether its instance is there or not.
fn connection_lawful(tables: &TableWords, state: &StateWords, s: u32) -> bool
    ensures { result ≡ connection_lawful (tables_in tables.now) (state_in state.now) s
        (server (state_in state.now).servers s) }
{
    let x = server(state, s);
    if x == 0 {
        return true;
    }
    ends_lawful(tables, state, s / 16, s % 16, provider(x), provideport(x))
}

fn connections_lawful(tables: &TableWords, state: &StateWords) -> bool
    ensures { result ≡ connections_lawful (tables_in tables.now) (state_in state.now) }
{
    let many = 64 < entries(state);
    if many {
        return false;
    }
    for s in 0..512 {
        if !connection_lawful(tables, state, s) {
            return false;
        }
    }
    true
}

pub fn configuration_lawful(
    default: u32,
    tables: &TableWords,
    program: &ProgramWords,
    state: &StateWords,
) -> bool
    ensures { result ≡ configuration_lawful default (tables_in tables.now) (program_in program.now)
        (state_in state.now) }
{
    let instances = instances_lawful(default, tables, state);
    let due = done(state) <= instructions(program);
    instances & (due & connections_lawful(tables, state))
}
