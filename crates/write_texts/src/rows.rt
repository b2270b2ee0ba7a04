// The rows of a type in the words of the tables, by their kind; the instructions and the steps, as lines say them.
ghost use Rattle.std.specs.Prelude.{◌≡◌};
ghost use Rattle.model.specs.View.{type_of, source, destination, behavior_of, port_kind, group_places, group_transitions};
ghost use Rattle.words.specs.Words.{tables_in, program_in, answer_in};
ghost use Rattle.write_spec.specs.Texts.{instruction_row, step_row};
ghost use Rattle.write_verbs.specs.Verbs.{as_instruction, as_step};
ghost use Rattle.read_sheet_lines.specs.Rows.{transition_row, behavior_row, port_row};
ghost use Rattle.write_texts.specs.Parts.{row_at, count_of};

use read_sheet_lines::{Row, Rows};
use words::answer::{step_id, step_number, step_verb};
use words::program::instruction;
use words::tables::{
    behavior_of, behaviors_of, destination, group_places, group_transitions, port_kind, ports_of,
    source, transitions_of,
};
use words::{AnswerWords, ProgramWords, TableWords};
use write_verbs::Said;

// How many rows of a kind type i has.
pub(crate) fn count_of(tables: &TableWords, rows: Rows, i: u32) -> u32
    ensures { result ≡ count_of rows (type_of (tables_in tables.now) i) }
{
    match rows {
        Rows::Transitions => transitions_of(tables, i),
        Rows::Behaviors => behaviors_of(tables, i),
        Rows::Ports => ports_of(tables, i),
    }
}

fn transition_at(tables: &TableWords, i: u32, x: u32) -> Row
    ensures { result ≡ transition_row (source (tables_in tables.now) i x) (destination (tables_in tables.now) i x) }
{
    let from = source(tables, i, x);
    let to = destination(tables, i, x);
    Row {
        source: from,
        destination: to,
        uses: 0,
        places: 0,
        transitions: 0,
    }
}

fn behavior_at(tables: &TableWords, i: u32, x: u32) -> Row
    ensures { result ≡ behavior_row (behavior_of (tables_in tables.now) i x) }
{
    let transitions = behavior_of(tables, i, x);
    Row {
        source: 0,
        destination: 0,
        uses: 0,
        places: 0,
        transitions,
    }
}

fn port_at(tables: &TableWords, i: u32, x: u32) -> Row
    ensures { result ≡ port_row (port_kind (tables_in tables.now) i x) (group_places (tables_in tables.now) i x)
        (group_transitions (tables_in tables.now) i x) }
{
    let uses = port_kind(tables, i, x);
    let places = group_places(tables, i, x);
    let transitions = group_transitions(tables, i, x);
    Row {
        source: 0,
        destination: 0,
        uses,
        places,
        transitions,
    }
}

// Row x of type i.
pub(crate) fn row_at(tables: &TableWords, rows: Rows, i: u32, x: u32) -> Row
    ensures { result ≡ row_at rows (tables_in tables.now) i x }
{
    match rows {
        Rows::Transitions => transition_at(tables, i, x),
        Rows::Behaviors => behavior_at(tables, i, x),
        Rows::Ports => port_at(tables, i, x),
    }
}

// Instruction j.
pub(crate) fn instruction_at(program: &ProgramWords, j: u32) -> Said
    ensures { as_instruction result ≡ instruction_row (program_in program.now) j }
{
    let x = instruction(program, j);
    Said(x.verb, x.id, x.number, x.provider, x.provideport)
}

// Step j.
pub(crate) fn step_at(answer: &AnswerWords, j: u32) -> Said
    ensures { as_step result ≡ step_row (answer_in answer.now) j }
{
    let verb = step_verb(answer, j);
    let id = step_id(answer, j);
    let number = step_number(answer, j);
    Said(verb, id, number, 0, 0)
}
