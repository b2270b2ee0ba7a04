// The kinds of line of a sheet of the Aeolus paper that are held to what was read so far, each read from the part of the text that starts with it.
// Promised: for every part and every universe, the value and the next place that the line's definition gives, or its refusal.
#![tactic(auto)]

ghost use Rattle.std.specs.Prelude.{◌≡◌};
ghost use Rattle.read_items.specs.Reads.{Reads};
ghost use Rattle.read_items.specs.Says.{number_says};
ghost use Rattle.read_items.specs.Within.{four};
ghost use Rattle.aeolus_model.specs.Words.{universe_in};
ghost use Rattle.aeolus_read_spec.specs.Limits.{above_ok, listed_ok, clauses_ok};
ghost use Rattle.aeolus_read_lines.specs.declared.Kind.TheVariants.{Initial, To, Interface, Row};
ghost use Rattle.aeolus_read_lines.specs.Kinds.{which_of, line_of, line_says};

use aeolus_model::Universe;
use item_spec::Refusal;
use read_items::Digits;
use read_items::numbers::{Four, Limits};

// The initial state of a type, an interface, and of a state where it may change to and a row.
#[derive(Clone, Copy)]
pub enum Kind {
    Initial,
    Interface,
    To(u32),
    Row(u32),
}

// The codes of the rows' maps.
const PROVISION: u32 = 0;

const STRONG: u32 = 2;

// Which of three keys the line starts with, from 0 up, and the place past it.
fn which_key(s: &[u8], first: &[u8], second: &[u8], third: &[u8]) -> Option<(u32, usize)>
    ensures { Reads s.now (number_says result) (which_of first.now second.now third.now s.now) }
{
    if let Some(i) = read_items::past_key(s, 0, first) {
        return Some((0, i));
    }
    if let Some(i) = read_items::past_key(s, 0, second) {
        return Some((1, i));
    }
    if let Some(i) = read_items::past_key(s, 0, third) {
        return Some((2, i));
    }
    None
}

// The numbers of a line that was read.
fn numbers_of(first: u32, second: u32, third: u32) -> Four
    ensures { result ≡ four first second third 0 }
{
    Four {
        first,
        second,
        third,
        fourth: 0,
    }
}

// `initial=`: a state of type k.
fn initial_line(s: &[u8], k: u32, universe: &Universe) -> Result<(Four, usize), Refusal>
    ensures { Reads s.now (line_says Initial result) (line_of Initial k 0 (universe_in universe.now) s.now) }
{
    let states = aeolus_model::states_of(universe, k);
    let Some(at) = read_items::past_key(s, 0, b"initial=") else {
        return Err(Refusal::BadForm);
    };
    read_items::numbers::numbers_within(s, at, Digits::Five, Limits::One(states))
}

// `to=` list of states of type k.
fn to_line(s: &[u8], k: u32, q: u32, universe: &Universe) -> Result<(Four, usize), Refusal>
    ensures { Reads s.now (line_says (To q) result) (line_of (To q) k 0 (universe_in universe.now) s.now) }
{
    let Some((list, used)) = read_items::list_line(s, b"to=", Digits::Five) else {
        return Err(Refusal::BadForm);
    };
    let beyond = aeolus_model::states_of(universe, k) < list.top;
    if beyond {
        return Err(Refusal::BeyondLimit);
    }
    Ok((numbers_of(list.mask, 0, 0), used))
}

// The name is above that of the interface before it.
fn above(universe: &Universe, k: u32, j: u32, name: u32) -> bool
    ensures { result ≡ above_ok (universe_in universe.now) k j name }
{
    if j == 0 {
        return true;
    }
    aeolus_model::name_of(universe, k, j - 1) < name
}

// `interface=`: interface j of type k, as its kind and its name.
fn interface_line(s: &[u8], k: u32, j: u32, universe: &Universe) -> Result<(Four, usize), Refusal>
    ensures { Reads s.now (line_says Interface result) (line_of Interface k j (universe_in universe.now) s.now) }
{
    let Some((kind, at)) = which_key(
        s,
        b"interface=provide,",
        b"interface=require,",
        b"interface=both,",
    ) else {
        return Err(Refusal::BadForm);
    };
    let (n, used) = read_items::numbers::numbers_within(s, at, Digits::Five, Limits::One(256))?;
    let name = n.first;
    if above(universe, k, j, name) {
        return Ok((numbers_of(kind, name, 0), used));
    }
    Err(Refusal::BadClause)
}

// The type has the interface on the side of the map m.
fn listed(universe: &Universe, k: u32, m: u32, name: u32) -> bool
    ensures { result ≡ listed_ok (universe_in universe.now) k m name }
{
    if m == PROVISION {
        return aeolus_model::may_provide(universe, k, name);
    }
    aeolus_model::may_require(universe, k, name)
}

// So it has; the state has no such port yet; and the initial state has no strong demand.
fn keeps_clauses(universe: &Universe, k: u32, q: u32, m: u32, name: u32) -> bool
    ensures { result ≡ clauses_ok (universe_in universe.now) k q m name }
{
    let place = aeolus_model::place_of(universe, k, name);
    let fresh = aeolus_model::number_at(universe, k, q, m, place) == 0;
    let first = (m == STRONG) & (q == aeolus_model::initial_of(universe, k));
    listed(universe, k, m, name) & (fresh & !first)
}

// `provide=`, `weak=` or `strong=`: the map, the place of the interface, and one more than the number.
fn row_line(s: &[u8], k: u32, q: u32, universe: &Universe) -> Result<(Four, usize), Refusal>
    ensures { Reads s.now (line_says (Row q) result) (line_of (Row q) k 0 (universe_in universe.now) s.now) }
{
    let Some((m, at)) = which_key(s, b"provide=", b"weak=", b"strong=") else {
        return Err(Refusal::BadForm);
    };
    let (n, used) = read_items::numbers::numbers_within(s, at, Digits::Five, Limits::Two(256, 65))?;
    let name = n.first;
    if keeps_clauses(universe, k, q, m, name) {
        let place = aeolus_model::place_of(universe, k, name);
        let more = n.second + 1;
        return Ok((numbers_of(m, place, more), used));
    }
    Err(Refusal::BadClause)
}

// The line of a kind in type k, of interfaces the one with number j.
pub fn kind_line(
    s: &[u8],
    kind: Kind,
    k: u32,
    j: u32,
    universe: &Universe,
) -> Result<(Four, usize), Refusal>
    ensures { Reads s.now (line_says kind result) (line_of kind k j (universe_in universe.now) s.now) }
{
    match kind {
        Kind::Initial => initial_line(s, k, universe),
        Kind::Interface => interface_line(s, k, j, universe),
        Kind::To(q) => to_line(s, k, q, universe),
        Kind::Row(q) => row_line(s, k, q, universe),
    }
}
