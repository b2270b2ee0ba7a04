// The form that a setter fills in, as lines: those of a sheet without the counts, which are counted here.
ghost use Rattle.std.specs.Prelude.{◌≡◌, true, ◌<◌, ◌≤◌, drop};
ghost use Rattle.read_spec.specs.Lines.{each};
ghost use Rattle.read_lines.specs.Runs.{RunsTo, came, number_came};
ghost use Rattle.read_lines.specs.Counts.{in_range};
ghost use Rattle.read_chain.specs.Chain.{Few, shortly};
ghost use Rattle.words.specs.Words.{tables_in, program_in};
ghost use Rattle.read_sheet.specs.Form.{begins, lines_with, counted, type_form, type_by, edition_form, form};
ghost use Rattle.read_sheet.specs.Counted.{counted_run};

use crate::programs::read_instructions;
use crate::types::{initial_run, read_type, rows_run};
use item_spec::Refusal;
use read_lines::{Limit, LineFault};
use read_sheet_lines::{Known, Rows};
use words::{ProgramWords, TableWords};

fn begins(text: &[u8], at: usize, key: &[u8]) -> bool
    ensures { result ≡ begins key.now (drop at text.now) }
{
    read_items::past_key(text, at, key).is_some()
}

// How many lines from a place on begin with a key, up to the first that does not, or of all.
fn lines_with(text: &[u8], start: usize, key: &[u8], all: bool) -> usize
    ensures { result ≡ lines_with all key.now true (drop start text.now) }
{
    let mut count: usize = 0;
    let mut fresh = true;
    for i in start..text.len() {
        let found = begins(text, i, key);
        if fresh & !(found | all) {
            return count;
        }
        count += usize::from(fresh & found);
        fresh = text[i] == b'\n';
    }
    count
}

// So many lines at a place, from the least to the greatest number.
fn counted_run(
    at: usize,
    count: usize,
    least: u32,
    greatest: u32,
) -> Result<(u32, usize), LineFault>
    ensures { result ≡ counted_run at count least greatest }
{
    if (least as usize <= count) & (count <= greatest as usize) {
        return Ok((count as u32, at));
    }
    Err(LineFault {
        refusal: Refusal::BeyondLimit,
        at,
    })
}

// How many lines come that begin with a key, or are to come of all.
fn read_counted(
    text: &[u8],
    start: usize,
    key: &[u8],
    all: bool,
    least: u32,
    greatest: u32,
) -> Result<(u32, usize), LineFault>
    ensures reads { RunsTo text.now (number_came result) (counted all key.now (in_range least greatest) (drop start text.now)) }
    ensures few { Few greatest result }
{
    let at = read_items::place_in(text, start);
    let count = lines_with(text, at, key, all);
    counted_run(at, count, least, greatest)
}

// The rows of one type: how many places it has, which are initial, then its rows by kind.
fn read_type_form(
    text: &[u8],
    start: usize,
    kind: u32,
    tables: &mut TableWords,
) -> Result<usize, LineFault>
    requires { kind < 16 }
    ensures { RunsTo text.now (came result (tables_in tables.new))
        (type_form kind (tables_in tables.old) (drop start text.now)) }
{
    let (places, at) = read_chain::count_run(text, start, b"type=", Limit::Places)?;
    let (initial, at) = initial_run(text, at, places)?;
    let (transitions, at) = read_counted(text, at, b"tran=", false, 0, 32)?;
    let known = Known {
        places,
        initial,
        transitions,
    };
    let at = rows_run(
        text,
        at,
        transitions,
        Rows::Transitions,
        kind,
        known,
        tables,
    )?;
    let (behaviors, at) = read_counted(text, at, b"behavior=", false, 0, 8)?;
    let at = rows_run(text, at, behaviors, Rows::Behaviors, kind, known, tables)?;
    let (ports, at) = read_counted(text, at, b"port=", false, 0, 16)?;
    let at = rows_run(text, at, ports, Rows::Ports, kind, known, tables)?;
    words::tables::put_type(tables, kind, places, initial, transitions, behaviors, ports);
    Ok(at)
}

// One type, as a form has it or as a sheet.
fn read_either(
    text: &[u8],
    start: usize,
    form: bool,
    kind: u32,
    tables: &mut TableWords,
) -> Result<usize, LineFault>
    requires { kind < 16 }
    ensures { RunsTo text.now (came result (tables_in tables.new))
        (type_by form kind (tables_in tables.old) (drop start text.now)) }
{
    if form {
        return read_type_form(text, start, kind, tables);
    }
    read_type(text, start, kind, tables)
}

// So many types, as a form has them or as a sheet.
pub(crate) fn read_types(
    text: &[u8],
    start: usize,
    count: u32,
    form: bool,
    tables: &mut TableWords,
) -> Result<usize, LineFault>
    requires { count ≤ 16 }
    ensures { RunsTo text.now (came result (tables_in tables.new))
        (each (type_by form) count 0 (tables_in tables.old) (drop start text.now)) }
{
    let mut at = read_items::place_in(text, start);
    for i in 0..count {
        at = read_either(text, at, form, i, tables)?;
    }
    Ok(at)
}

// The number that a form opens with: 1 where no row says it.
fn form_edition(text: &[u8], start: usize) -> Result<(u32, usize), LineFault>
    ensures { RunsTo text.now (number_came result) (edition_form (drop start text.now)) }
{
    if begins(text, start, b"sheet=") {
        return read_chain::edition_run(text, start);
    }
    let at = read_items::place_in(text, start);
    Ok((1, at))
}

// The rows of a form, up to the text's end.
pub(crate) fn read_rows(
    text: &[u8],
    tables: &mut TableWords,
    program: &mut ProgramWords,
) -> Result<usize, LineFault>
    ensures { RunsTo text.now (came result (tables_in tables.new, program_in program.new))
        (shortly form text.now) }
{
    let at = read_chain::length_run(text)?;
    let (edition, at) = form_edition(text, at)?;
    let (depth, at) = read_chain::count_run(text, at, b"depth=", Limit::Depth)?;
    let (types, at) = read_counted(text, at, b"type=", true, 1, 16)?;
    words::tables::start_tables(tables, depth, types);
    let at = read_types(text, at, types, true, tables)?;
    let (count, at) = read_counted(text, at, b"do=", false, 0, 256)?;
    words::program::start_program(program, edition, count);
    let instructions = read_instructions(text, at, count, edition, types, program);
    read_chain::then_end(text, instructions)
}
