// The words of the tables.
ghost use Rattle.std.specs.Prelude.{◌≡◌};
ghost use Rattle.model.specs.Empty.{no_tables};
ghost use Rattle.model.specs.View.{source, destination, behavior_of, port_kind, is_use, group_places, group_transitions, type_of};
ghost use Rattle.read_spec.specs.Fill.{headed};
ghost use Rattle.words.specs.Words.{tables_in};
ghost use Rattle.words.specs.Parts.{with_head, with_ends, with_behavior, with_group, with_kind, type_of_words};

use crate::{RowsAt, TableWords, cell, put_row};
use model::put_at;

// Where the rows of transitions, ports, behaviors and types stand, each counted over all types, and the two words after them.
const TRANSITIONS: RowsAt = RowsAt {
    at: 0,
    count: 512,
    width: 2,
};

const PORTS: RowsAt = RowsAt {
    at: 1024,
    count: 256,
    width: 3,
};

const BEHAVIORS: RowsAt = RowsAt {
    at: 1792,
    count: 128,
    width: 1,
};

const TYPES: RowsAt = RowsAt {
    at: 1920,
    count: 16,
    width: 5,
};

const DEPTH: usize = 2000;

const COUNT: usize = 2001;

// Of type k: the ends of transition x, the set of behavior b, the kind and the group of port q.
pub fn source(tables: &TableWords, k: u32, x: u32) -> u32
    ensures { result ≡ source (tables_in tables.now) k x }
{
    cell(tables, TRANSITIONS, (k as usize) * 32 + x as usize, 0)
}

pub fn destination(tables: &TableWords, k: u32, x: u32) -> u32
    ensures { result ≡ destination (tables_in tables.now) k x }
{
    cell(tables, TRANSITIONS, (k as usize) * 32 + x as usize, 1)
}

pub fn behavior_of(tables: &TableWords, k: u32, b: u32) -> u32
    ensures { result ≡ behavior_of (tables_in tables.now) k b }
{
    cell(tables, BEHAVIORS, (k as usize) * 8 + b as usize, 0)
}

pub fn group_places(tables: &TableWords, k: u32, q: u32) -> u32
    ensures { result ≡ group_places (tables_in tables.now) k q }
{
    cell(tables, PORTS, (k as usize) * 16 + q as usize, 1)
}

pub fn group_transitions(tables: &TableWords, k: u32, q: u32) -> u32
    ensures { result ≡ group_transitions (tables_in tables.now) k q }
{
    cell(tables, PORTS, (k as usize) * 16 + q as usize, 2)
}

pub fn port_kind(tables: &TableWords, k: u32, q: u32) -> u32
    ensures { result ≡ port_kind (tables_in tables.now) k q }
{
    cell(tables, PORTS, (k as usize) * 16 + q as usize, 0)
}

pub fn is_use(tables: &TableWords, k: u32, q: u32) -> bool
    ensures { result ≡ is_use (tables_in tables.now) k q }
{
    port_kind(tables, k, q) == 1
}

// How many places type k has, which are initial, and how many transitions, behaviors and ports it has.
pub fn places_of(tables: &TableWords, k: u32) -> u32
    ensures { result ≡ (type_of (tables_in tables.now) k).places }
{
    cell(tables, TYPES, k as usize, 0)
}

pub fn initial_of(tables: &TableWords, k: u32) -> u32
    ensures { result ≡ (type_of (tables_in tables.now) k).initial }
{
    cell(tables, TYPES, k as usize, 1)
}

pub fn transitions_of(tables: &TableWords, k: u32) -> u32
    ensures { result ≡ (type_of (tables_in tables.now) k).transitions }
{
    cell(tables, TYPES, k as usize, 2)
}

pub fn behaviors_of(tables: &TableWords, k: u32) -> u32
    ensures { result ≡ (type_of (tables_in tables.now) k).behaviors }
{
    cell(tables, TYPES, k as usize, 3)
}

pub fn ports_of(tables: &TableWords, k: u32) -> u32
    ensures { result ≡ (type_of (tables_in tables.now) k).ports }
{
    cell(tables, TYPES, k as usize, 4)
}

pub fn depth(tables: &TableWords) -> u32
    ensures { result ≡ (tables_in tables.now).depth }
{
    tables[DEPTH]
}

pub fn types(tables: &TableWords) -> u32
    ensures { result ≡ (tables_in tables.now).count }
{
    tables[COUNT]
}

// Transition j, behavior j, port j, each counted over all types; past the last nothing changes.
pub fn put_ends(tables: &mut TableWords, j: u32, source: u32, destination: u32)
    ensures { tables_in tables.new ≡ with_ends (tables_in tables.old) j source destination }
{
    put_row(tables, TRANSITIONS, j as usize, 0, &[source, destination]);
}

pub fn put_behavior(tables: &mut TableWords, j: u32, transitions: u32)
    ensures { tables_in tables.new ≡ with_behavior (tables_in tables.old) j transitions }
{
    put_row(tables, BEHAVIORS, j as usize, 0, &[transitions]);
}

pub fn put_port(tables: &mut TableWords, j: u32, uses: u32, places: u32, transitions: u32)
    ensures { tables_in tables.new ≡ with_group (tables_in tables.old) j uses places transitions }
{
    put_row(tables, PORTS, j as usize, 0, &[uses, places, transitions]);
}

// What is known of type k; past the last nothing changes.
pub fn put_type(
    tables: &mut TableWords,
    k: u32,
    places: u32,
    initial: u32,
    transitions: u32,
    behaviors: u32,
    ports: u32,
)
    ensures { tables_in tables.new
        ≡ with_kind (tables_in tables.old) k (type_of_words places initial transitions behaviors ports) }
{
    put_row(
        tables,
        TYPES,
        k as usize,
        0,
        &[places, initial, transitions, behaviors, ports],
    );
}

// Nothing is written down; then a sheet of that depth and so many types.
pub fn clear_tables(tables: &mut TableWords)
    ensures { tables_in tables.new ≡ no_tables }
{
    *tables = [0u32; 2002];
}

// The depth, and how many types there are.
pub fn put_head(tables: &mut TableWords, depth: u32, count: u32)
    ensures { tables_in tables.new ≡ with_head (tables_in tables.old) depth count }
{
    put_at(tables, DEPTH, depth);
    put_at(tables, COUNT, count);
}

// No rows yet, whatever the words held before.
pub fn start_tables(tables: &mut TableWords, depth: u32, count: u32)
    ensures { tables_in tables.new ≡ headed depth count }
{
    clear_tables(tables);
    put_head(tables, depth, count);
}
