// The lines of the types, each put into what was read so far.
ghost use Rattle.std.specs.Prelude.{◌≡◌, drop};
ghost use Rattle.sets.specs.Mask.{with};
ghost use Rattle.read_spec.specs.Lines.{each};
ghost use Rattle.read_lines.specs.Runs.{RunsTo, came};
ghost use Rattle.aeolus_model.specs.Model.{type_of, with_provides, with_requires};
ghost use Rattle.aeolus_model.specs.Words.{universe_in};
ghost use Rattle.aeolus_read_spec.specs.Texts.{with_interface, state_at, type_at};
ghost use Rattle.aeolus_read_lines.specs.Kinds.{value, put_in, line_at};

use aeolus_model::Universe;
use aeolus_read_lines::{Kind, kind_line};
use read_items::numbers::Four;
use read_lines::LineFault;

// The codes of the interfaces' kinds.
const PROVIDE: u32 = 0;

const REQUIRE: u32 = 1;

// Interface j among those that type k may provide, and require.
fn mark_provided(universe: &mut Universe, k: u32, j: u32)
    ensures { universe_in universe.new
        ≡ with_provides (universe_in universe.old) k (with j (type_of (universe_in universe.old) k).provides) }
{
    let provided = aeolus_model::provides_of(universe, k);
    aeolus_model::put_provides(universe, k, sets::with(provided, j));
}

fn mark_required(universe: &mut Universe, k: u32, j: u32)
    ensures { universe_in universe.new
        ≡ with_requires (universe_in universe.old) k (with j (type_of (universe_in universe.old) k).requires) }
{
    let required = aeolus_model::requires_of(universe, k);
    aeolus_model::put_requires(universe, k, sets::with(required, j));
}

// The interface by its kind: provided, required, or both.
fn put_interface(universe: &mut Universe, k: u32, j: u32, kind: u32, name: u32)
    ensures { universe_in universe.new ≡ with_interface (universe_in universe.old) k j kind name }
{
    aeolus_model::put_name(universe, k, j, name);
    if kind == REQUIRE {
        mark_required(universe, k, j);
        return;
    }
    mark_provided(universe, k, j);
    if kind == PROVIDE {
        return;
    }
    mark_required(universe, k, j);
}

// The numbers of a line, where its kind puts them.
fn put_line(universe: &mut Universe, kind: Kind, k: u32, j: u32, numbers: Four)
    ensures { universe_in universe.new ≡ put_in kind k j (universe_in universe.old) (value kind numbers) }
{
    match kind {
        Kind::Initial => {
            aeolus_model::put_initial(universe, k, numbers.first);
        }
        Kind::Interface => {
            put_interface(universe, k, j, numbers.first, numbers.second);
        }
        Kind::To(q) => {
            aeolus_model::put_to(universe, k, q, numbers.first);
        }
        Kind::Row(q) => {
            aeolus_model::put_number(universe, k, q, numbers.first, numbers.second, numbers.third);
        }
    }
}

// The line at a place, of a kind in type k.
fn read_line(
    text: &[u8],
    start: usize,
    kind: Kind,
    k: u32,
    j: u32,
    universe: &mut Universe,
) -> Result<usize, LineFault>
    ensures { RunsTo text.now (came result (universe_in universe.new))
        (line_at kind k j (universe_in universe.old) (drop start text.now)) }
{
    let at = read_items::place_in(text, start);
    let (numbers, used) = read_chain::line_at(at, kind_line(&text[at..], kind, k, j, universe))?;
    put_line(universe, kind, k, j, numbers);
    Ok(at + used)
}

// As many lines of a kind as the last line said.
fn read_lines(
    text: &[u8],
    start: usize,
    count: u32,
    kind: Kind,
    k: u32,
    universe: &mut Universe,
) -> Result<usize, LineFault>
    ensures { RunsTo text.now (came result (universe_in universe.new))
        (each (line_at kind k) count 0 (universe_in universe.old) (drop start text.now)) }
{
    let mut at = read_items::place_in(text, start);
    for i in 0..count {
        at = read_line(text, at, kind, k, i, universe)?;
    }
    Ok(at)
}

// The lines of state q of type k.
fn read_state(
    text: &[u8],
    start: usize,
    k: u32,
    q: u32,
    universe: &mut Universe,
) -> Result<usize, LineFault>
    ensures { RunsTo text.now (came result (universe_in universe.new))
        (state_at k q (universe_in universe.old) (drop start text.now)) }
{
    let at = read_chain::due_run(text, start, b"state=", q)?;
    let at = read_line(text, at, Kind::To(q), k, 0, universe)?;
    let (active, at) = read_chain::within_run(text, at, b"active=", 0, 48)?;
    read_lines(text, at, active, Kind::Row(q), k, universe)
}

// So many states.
fn read_states(
    text: &[u8],
    start: usize,
    count: u32,
    k: u32,
    universe: &mut Universe,
) -> Result<usize, LineFault>
    ensures { RunsTo text.now (came result (universe_in universe.new))
        (each (state_at k) count 0 (universe_in universe.old) (drop start text.now)) }
{
    let mut at = read_items::place_in(text, start);
    for q in 0..count {
        at = read_state(text, at, k, q, universe)?;
    }
    Ok(at)
}

// The lines of type k.
fn read_type(text: &[u8], start: usize, k: u32, universe: &mut Universe) -> Result<usize, LineFault>
    ensures { RunsTo text.now (came result (universe_in universe.new))
        (type_at k (universe_in universe.old) (drop start text.now)) }
{
    let at = read_chain::due_run(text, start, b"type=", k)?;
    let (states, at) = read_chain::within_run(text, at, b"states=", 1, 16)?;
    aeolus_model::put_states(universe, k, states);
    let at = read_line(text, at, Kind::Initial, k, 0, universe)?;
    let (listed, at) = read_chain::within_run(text, at, b"interfaces=", 0, 16)?;
    aeolus_model::put_interfaces(universe, k, listed);
    let interfaces = aeolus_model::interfaces_of(universe, k);
    let at = read_lines(text, at, interfaces, Kind::Interface, k, universe)?;
    let states = aeolus_model::states_of(universe, k);
    read_states(text, at, states, k, universe)
}

// As many types as the last line said.
pub(crate) fn read_types(
    text: &[u8],
    start: usize,
    count: u32,
    universe: &mut Universe,
) -> Result<usize, LineFault>
    ensures { RunsTo text.now (came result (universe_in universe.new))
        (each type_at count 0 (universe_in universe.old) (drop start text.now)) }
{
    let mut at = read_items::place_in(text, start);
    for k in 0..count {
        at = read_type(text, at, k, universe)?;
    }
    Ok(at)
}
