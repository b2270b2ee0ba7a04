// Connections by use port: which stand, one more and one fewer.
// Promised: each answers what rules_spec/specs say of the configuration that the words are, and each change is that of the rule, on all inputs.
#![tactic(auto)]

ghost use Rattle.std.specs.Prelude.{◌≡◌, cond, ◌&&◌, ℕ, ltb};
ghost use Rattle.model.specs.Empty.{no_server};
ghost use Rattle.model.specs.View.{port_number, server_number, is_served, connection_at};
ghost use Rattle.rules_spec.specs.Standing.{some_connection};
ghost use Rattle.rules_spec.specs.Del.{named_by};
ghost use Rattle.rules_spec.specs.Con.{connected};
ghost use Rattle.rules_spec.specs.Ports.{is_of};
ghost use Rattle.rules_spec.specs.DCon.{same_connection, disconnected};
ghost use Rattle.words.specs.Words.{state_in};
ghost use Rattle.words.specs.Parts.{connection_of_words};

use words::StateWords;
use words::state::{provideport, provider, put_server, server, server_of};

// Use port q of instance u is connected.
pub fn has_server(state: &StateWords, u: u32, q: u32) -> bool
    ensures { result ≡ some_connection (state_in state.now) (is_of u q) }
{
    server_of(state, u, q) != 0
}

// That very connection stands.
pub fn stands(state: &StateWords, u: u32, q: u32, v: u32, p: u32) -> bool
    ensures { result ≡ some_connection (state_in state.now) (same_connection (connection_of_words u q v p)) }
{
    let x = server_of(state, u, q);
    (x != 0) & ((provider(x) == v) & (provideport(x) == p))
}

// The use port of number s is connected, and instance i is at one of the ends.
fn names(state: &StateWords, i: u32, s: u32) -> bool
    ensures { result ≡ (named_by i (connection_at (state_in state.now).servers s) && is_served (state_in state.now).servers s) }
{
    let x = server(state, s);
    ((s / 16 == i) | (provider(x) == i)) & (x != 0)
}

// A connection names instance i. There is no early end, so that the compiler looks at several at once.
pub fn is_named(state: &StateWords, i: u32) -> bool
    ensures { result ≡ some_connection (state_in state.now) (named_by i) }
{
    let mut found = false;
    for s in 0..512 {
        found = found | names(state, i, s);
    }
    found
}

// The number of provide port p of instance v as a server: none where that is no word.
fn server_number(v: u32, p: u32) -> u32
    ensures { result ≡ cond (ltb (port_number v p) 4294967295) (server_number v p) no_server }
{
    let n = (v as usize) * 16 + p as usize + 1;
    u32::try_from(n).unwrap_or(0)
}

// Where no word holds the server's number, the use port is left without one.
pub fn connect(state: &mut StateWords, u: u32, q: u32, v: u32, p: u32)
    ensures { state_in state.new ≡ cond (ltb (port_number v p) 4294967295)
        (connected (state_in state.old) (connection_of_words u q v p)) (disconnected (state_in state.old) (connection_of_words u q v p)) }
{
    let x = server_number(v, p);
    put_server(state, (u as usize) * 16 + q as usize, x);
}

pub fn disconnect(state: &mut StateWords, u: u32, q: u32)
    ensures { (v p : ℕ) → state_in state.new ≡ disconnected (state_in state.old) (connection_of_words u q v p) }
{
    put_server(state, (u as usize) * 16 + q as usize, 0);
}
