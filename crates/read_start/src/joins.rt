// The line of a connection: one that `con` would make, by user then port.
ghost use Rattle.std.specs.Prelude.{◌≡◌, List, ℕ, drop};
ghost use Rattle.start_spec.specs.Row.{connection_line};
ghost use Rattle.start_spec.specs.Text.{connection_at};
ghost use Rattle.read_items.specs.Reads.{Reads};
ghost use Rattle.read_lines.specs.Runs.{RunsTo};
ghost use Rattle.words.specs.Words.{tables_in, state_in};
ghost use Rattle.item_spec.specs.Reader.{bytes};
ghost use Rattle.read_items.specs.Keyed.{keyed};
ghost use Rattle.read_items.specs.Within.{numbers_says, numbers_within};
ghost use Rattle.read_items.specs.declared.numbers.Limits.TheVariants as limits;
ghost use Rattle.read_start.specs.Says.{in_type, join_says, join_number, held_number, stood_came, SmallJoin};

use crate::rows::Stood;
use item_spec::Refusal;
use read_items::Digits;
use read_items::numbers::{Four, Limits, numbers_within};
use read_lines::LineFault;
use step_connections::connect;
use step_instructions::con_check;
use words::state::{kind, present};
use words::tables::ports_of;
use words::{StateWords, TableWords};

// A port's number, held to its type where its instance is there.
fn port_in(tables: &TableWords, state: &StateWords, i: u32, q: u32) -> bool
    ensures { result ≡ in_type (tables_in tables.now) (state_in state.now) i q }
{
    if present(state, i) {
        q < ports_of(tables, kind(state, i))
    } else {
        true
    }
}

// `connection=user,useport,provider,provideport`
fn form_line(s: &[u8]) -> Result<(Four, usize), Refusal>
    ensures reads { Reads s.now (numbers_says result)
        (keyed (bytes "connection=") (numbers_within 5 (limits.Four 32 16 32 16)) s.now) }
    ensures small { SmallJoin result }
{
    let Some(i) = read_items::past_key(s, 0, b"connection=") else {
        return Err(Refusal::BadForm);
    };
    numbers_within(s, i, Digits::Five, Limits::Four(32, 16, 32, 16))
}

// 3 and 4 of a connection whose numbers are within the flat limits.
fn join_held(tables: &TableWords, state: &StateWords, least: usize, n: Four) -> Result<(), Refusal>
    ensures { held_number result ≡ join_number (tables_in tables.now) (state_in state.now) least n }
{
    let user = port_in(tables, state, n.first, n.second);
    let provider = port_in(tables, state, n.third, n.fourth);
    if !(user & provider) {
        return Err(Refusal::BeyondLimit);
    }
    if n.first as usize * 16 + (n.second as usize) < least {
        return Err(Refusal::BadClause);
    }
    if con_check(tables, state, n.first, n.second, n.third, n.fourth) != 0 {
        return Err(Refusal::BadClause);
    }
    Ok(())
}

fn join_line(
    tables: &TableWords,
    state: &StateWords,
    least: usize,
    s: &[u8],
) -> Result<(Four, usize), Refusal>
    ensures reads { Reads s.now (join_says result)
        (connection_line (tables_in tables.now) (state_in state.now) least s.now) }
    ensures small { SmallJoin result }
{
    let (n, next) = form_line(s)?;
    join_held(tables, state, least, n)?;
    Ok((n, next))
}

// One connection, from the part of the text that starts with its line.
pub(crate) fn read_connection(
    text: &[u8],
    stood: Stood,
    tables: &TableWords,
    state: &mut StateWords,
) -> Result<Stood, LineFault>
    ensures { (j : ℕ) (lasts : List ℕ) → RunsTo text.now (stood_came result (state_in state.new) lasts)
        (connection_at (tables_in tables.now) j (state_in state.old, stood.least, lasts)
        (drop stood.at text.now)) }
{
    let at = read_items::place_in(text, stood.at);
    let line = join_line(tables, state, stood.least, &text[at..]);
    let (n, used) = read_chain::line_at(at, line)?;
    connect(state, n.first, n.second, n.third, n.fourth);
    let least = n.first as usize * 16 + n.second as usize + 1;
    Ok(Stood {
        at: at + used,
        least,
    })
}
