// Which provide ports of an instance an active use port is connected to.
ghost use Rattle.std.specs.Prelude.{◌≡◌, ◌-◌, ◌%◌, ◌<◌, cond, ◌||◌};
ghost use Rattle.sets.specs.Mask.{member, collect, with};
ghost use Rattle.model.specs.View.{instance, port_number};
ghost use Rattle.rules_spec.specs.Instance.{active};
ghost use Rattle.rules_spec.specs.Standing.{standing};
ghost use Rattle.rules_spec.specs.Ports.{in_use};
ghost use Rattle.words.specs.Words.{tables_in, state_in};
ghost use Rattle.words.specs.Parts.{server_of};
ghost use Rattle.step_ports.specs.InUse.{served_by, uses_of, employs_by};

use step_instance::active;
use words::state::{provideport, server, server_of};
use words::{StateWords, TableWords};

// Use port q of user u is served by instance i. Nobody's number less one is past every instance's.
fn is_served_by(state: &StateWords, u: u32, q: u32, i: u32) -> bool
    requires { (u < 32) × (q < 16) × (i < 32) }
    ensures { result ≡ served_by (state_in state.now).servers i (port_number u q) }
{
    std::num::wrapping_sub_u32(server(state, u * 16 + q), 1) / 16 == i
}

// The use ports of user u that instance i serves, each as one more. There is no early end and no port by itself, so that the compiler
// compares all sixteen at once.
fn uses_of(state: &StateWords, u: u32, i: u32) -> u32
    requires { (u < 32) × (i < 32) }
    ensures { result ≡ uses_of (state_in state.now).servers u i }
{
    let mut ports: u32 = 0;
    for q in 0..16 {
        if is_served_by(state, u, q, i) {
            ports = sets::with(ports, q + 1);
        }
    }
    ports
}

// The set with the provide port that serves use port q of user u, where that is active.
fn with_server(set: u32, tables: &TableWords, state: &StateWords, u: u32, q: u32) -> u32
    ensures { result ≡ cond (active (tables_in tables.now) (instance (state_in state.now) u) q)
        (with ((server_of (state_in state.now) u q - 1) % 16) set) set }
{
    if active(tables, state, u, q) {
        sets::with(set, provideport(server_of(state, u, q)))
    } else {
        set
    }
}

// The set with the provide ports of instance i that active use ports of user u are connected to.
fn with_user(set: u32, tables: &TableWords, state: &StateWords, i: u32, u: u32) -> u32
    requires { (u < 32) × (i < 32) }
    ensures { result ≡ collect 32 (λ q. member q set || employs_by (tables_in tables.now) (state_in state.now) i q u) }
{
    let mut all = set;
    let mut rest = uses_of(state, u, i);
    while rest != 0 {
        let y = sets::least(rest);
        all = with_server(all, tables, state, u, y - 1);
        rest = sets::later(rest);
    }
    all
}

// The provide ports of instance i that have an active use port connected.
pub(crate) fn in_use(tables: &TableWords, state: &StateWords, i: u32) -> u32
    requires { i < 32 }
    ensures { result ≡ in_use (tables_in tables.now) (standing (state_in state.now)) (state_in state.now) i }
{
    let mut all: u32 = 0;
    for u in 0..32 {
        all = with_user(all, tables, state, i, u);
    }
    all
}
