// The types of a sheet, with their rows.
ghost use Rattle.std.specs.Prelude.{◌≡◌, ◌*◌, ◌<◌, ◌≤◌, drop};
ghost use Rattle.read_spec.specs.Lines.{line, each};
ghost use Rattle.read_spec.specs.Kinds.{initial_line};
ghost use Rattle.read_spec.specs.Texts.{type_lines};
ghost use Rattle.read_lines.specs.Runs.{RunsTo, came, number_came};
ghost use Rattle.words.specs.Words.{tables_in};
ghost use Rattle.read_sheet.specs.Rows.{per_type, put_row, row};

use read_lines::{Limit, LineFault};
use read_sheet_lines::{Known, Row, Rows};
use words::TableWords;

// How many slots each type has for its rows of a kind.
fn per_type(rows: Rows) -> u32
    ensures { result ≡ per_type rows }
{
    match rows {
        Rows::Transitions => 32,
        Rows::Behaviors => 8,
        Rows::Ports => 16,
    }
}

// A row in its slot, counted over all types.
fn put_row(rows: Rows, slot: u32, row: Row, tables: &mut TableWords)
    ensures { tables_in tables.new ≡ put_row rows (tables_in tables.old) slot row }
{
    match rows {
        Rows::Transitions => {
            words::tables::put_ends(tables, slot, row.source, row.destination);
        }
        Rows::Behaviors => {
            words::tables::put_behavior(tables, slot, row.transitions);
        }
        Rows::Ports => {
            words::tables::put_port(tables, slot, row.uses, row.places, row.transitions);
        }
    }
}

// A row, from the part of the text that starts with its line, in a type of which so much is known.
fn read_row(
    text: &[u8],
    start: usize,
    rows: Rows,
    slot: u32,
    known: Known,
    tables: &mut TableWords,
) -> Result<usize, LineFault>
    ensures { RunsTo text.now (came result (tables_in tables.new))
        (row rows known slot (tables_in tables.old) (drop start text.now)) }
{
    let at = read_items::place_in(text, start);
    let line = read_sheet_lines::row_line(&text[at..], rows, known);
    let (row, used) = read_chain::line_at(at, line)?;
    put_row(rows, slot, row, tables);
    Ok(at + used)
}

// So many rows of a kind, each in its slot.
pub(crate) fn rows_run(
    text: &[u8],
    start: usize,
    count: u32,
    rows: Rows,
    kind: u32,
    known: Known,
    tables: &mut TableWords,
) -> Result<usize, LineFault>
    requires kind_bound { kind < 16 }
    requires number_bound { count ≤ 32 }
    ensures { RunsTo text.now (came result (tables_in tables.new))
        (each (row rows known) count (kind * per_type rows) (tables_in tables.old) (drop start text.now)) }
{
    let first = kind * per_type(rows);
    let mut at = read_items::place_in(text, start);
    for i in 0..count {
        at = read_row(text, at, rows, first + i, known, tables)?;
    }
    Ok(at)
}

// The `initial=` line of a type of so many places.
pub(crate) fn initial_run(text: &[u8], start: usize, places: u32) -> Result<(u32, usize), LineFault>
    ensures { RunsTo text.now (number_came result) (line (initial_line places) (drop start text.now)) }
{
    let at = read_items::place_in(text, start);
    let line = read_sheet_lines::initial_line(&text[at..], places);
    let (mask, used) = read_chain::line_at(at, line)?;
    Ok((mask, at + used))
}

// The lines of one type.
pub(crate) fn read_type(
    text: &[u8],
    start: usize,
    kind: u32,
    tables: &mut TableWords,
) -> Result<usize, LineFault>
    requires { kind < 16 }
    ensures { RunsTo text.now (came result (tables_in tables.new))
        (type_lines kind (tables_in tables.old) (drop start text.now)) }
{
    let at = read_chain::due_run(text, start, b"type=", kind)?;
    let (places, at) = read_chain::count_run(text, at, b"places=", Limit::Places)?;
    let (initial, at) = initial_run(text, at, places)?;
    let (transitions, at) = read_chain::count_run(text, at, b"transitions=", Limit::Transitions)?;
    let known = Known {
        places,
        initial,
        transitions,
    };
    let at = rows_run(
        text,
        at,
        transitions,
        Rows::Transitions,
        kind,
        known,
        tables,
    )?;
    let (behaviors, at) = read_chain::count_run(text, at, b"behaviors=", Limit::Behaviors)?;
    let at = rows_run(text, at, behaviors, Rows::Behaviors, kind, known, tables)?;
    let (ports, at) = read_chain::count_run(text, at, b"ports=", Limit::Ports)?;
    let at = rows_run(text, at, ports, Rows::Ports, kind, known, tables)?;
    words::tables::put_type(tables, kind, places, initial, transitions, behaviors, ports);
    Ok(at)
}
