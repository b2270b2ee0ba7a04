// A start read whole into the words of a state: its first line, its instances, its connections, each line from the part of the text that starts with it;
// then whether each active use port is served.
// Promised: for every text and tables `fill_start` answers the one number and place that `start_read` gives, and the words say the configuration that it
// gives and what had been pushed before it, whatever they held before; beside a refusal they are all 0.
#![tactic(auto)]

mod items;
pub mod joins;
pub mod rows;

ghost use Rattle.std.specs.Prelude.{◌≡◌, List, ℕ, drop};
ghost use Rattle.model.specs.Empty.{start, none_begun};
ghost use Rattle.read_spec.specs.Lines.{each};
ghost use Rattle.start_spec.specs.Text.{instance_at, connection_at};
ghost use Rattle.start_spec.specs.Served.{fails_still, some_unserved};
ghost use Rattle.read_lines.specs.Runs.{RunsTo, came};
ghost use Rattle.read_chain.specs.Whole.{beside};
ghost use Rattle.words.specs.Words.{tables_in, begun_in, state_in};
ghost use Rattle.read_start.specs.Start.{with_begun_queue, queue_room, short_start, start_run, start_read};
ghost use Rattle.read_start.specs.Says.{stood_came};

use item_spec::Refusal;
use joins::read_connection;
use read_chain::Place;
use read_lines::LineFault;
use rows::{Setting, Stood, read_instance};
use step_ports::still_check;
use words::begun::{clear_begun, put_begun_slot};
use words::state::{clear_state, present, slot_at};
use words::{BegunWords, StateWords, TableWords};

// "with 1 past 8,192 bytes"
pub const LONGEST_START: usize = 8192;

// "50 for an unserved use port, after the start's last line"
// A number, as unserved_at_start (start_spec/specs/Served) is one: no line is refused with it.
pub const UNSERVED_AT_START: u8 = 50;

// A start that is not too long, at its beginning.
fn length_run(text: &[u8]) -> Result<usize, LineFault>
    ensures { RunsTo text.now (came result tt) (short_start text.now) }
{
    let long = LONGEST_START < text.len();
    if long {
        return Err(LineFault {
            refusal: Refusal::TooLong,
            at: 0,
        });
    }
    Ok(0)
}

// As many instances as the last line said.
fn read_instances(
    setting: Setting,
    text: &[u8],
    start: usize,
    count: u32,
    tables: &TableWords,
    state: &mut StateWords,
    begun: &mut BegunWords,
) -> Result<Stood, LineFault>
    ensures { RunsTo text.now (stood_came result (state_in state.new) (begun_in begun.new).last)
        (each (instance_at setting.edition (queue_room setting.default (tables_in tables.now)) (tables_in tables.now)) count 0
        (state_in state.old, 0, (begun_in begun.old).last) (drop start text.now)) }
{
    let at = read_items::place_in(text, start);
    let mut stood = Stood { at, least: 0 };
    for _ in 0..count {
        stood = read_instance(setting, text, stood, tables, state, begun)?;
    }
    Ok(stood)
}

// As many connections as the last line said.
fn read_connections(
    text: &[u8],
    start: usize,
    count: u32,
    tables: &TableWords,
    state: &mut StateWords,
) -> Result<Stood, LineFault>
    ensures { (lasts : List ℕ) → RunsTo text.now (stood_came result (state_in state.new) lasts)
        (each (connection_at (tables_in tables.now)) count 0 (state_in state.old, 0, lasts) (drop start text.now)) }
{
    let at = read_items::place_in(text, start);
    let mut stood = Stood { at, least: 0 };
    for _ in 0..count {
        stood = read_connection(text, stood, tables, state)?;
    }
    Ok(stood)
}

// The lines of a start, up to the text's end, into words that say nothing is up and nothing was pushed.
fn read_lines(
    setting: Setting,
    text: &[u8],
    tables: &TableWords,
    state: &mut StateWords,
    begun: &mut BegunWords,
) -> Result<usize, LineFault>
    requires { (state_in state.old ≡ start) × (begun_in begun.old ≡ none_begun) }
    ensures { RunsTo text.now (came result (state_in state.new, (begun_in begun.new).last))
        (start_run setting.edition (queue_room setting.default (tables_in tables.now)) (tables_in tables.now) text.now) }
{
    let first = read_chain::then_due(text, length_run(text), b"start=", 1);
    let (count, at) = read_chain::then_within(text, first, b"instances=", 0, 32)?;
    let stood = read_instances(setting, text, at, count, tables, state, begun)?;
    let (joins, at) = read_chain::within_run(text, stood.at, b"connections=", 0, 64)?;
    let joined = read_connections(text, at, joins, tables, state)?;
    read_chain::end_run(text, joined.at)
}

// At instance i even a move that changes nothing would fail the port check.
fn fails_still(tables: &TableWords, state: &StateWords, i: u32) -> bool
    ensures { result ≡ fails_still (tables_in tables.now) (state_in state.now) i }
{
    if !present(state, i) {
        return false;
    }
    still_check(tables, state, i).refused != 0
}

// Some active use port isn't connected to an active provide port.
fn some_unserved(tables: &TableWords, state: &StateWords) -> bool
    ensures { result ≡ some_unserved (tables_in tables.now) (state_in state.now) }
{
    for i in 0..32 {
        if fails_still(tables, state, i) {
            return true;
        }
    }
    false
}

// Nothing is up, and nothing was pushed.
fn clear_words(state: &mut StateWords, begun: &mut BegunWords)
    ensures { (state_in state.new ≡ start) × (begun_in begun.new ≡ none_begun) }
{
    clear_state(state);
    clear_begun(begun);
}

// What is queued was pushed.
fn show_queues(state: &StateWords, begun: &mut BegunWords)
    ensures { begun_in begun.new ≡ with_begun_queue (begun_in begun.old) (state_in state.now).queue }
{
    for n in 0..256 {
        put_begun_slot(begun, n, slot_at(state, n));
    }
}

// The start of a text of any length, in the lent words, whatever these held before; beside a refusal they are all 0.
pub fn fill_start(
    default: u32,
    edition: u32,
    text: &[u8],
    tables: &TableWords,
    state: &mut StateWords,
    begun: &mut BegunWords,
) -> Place
    ensures { beside result (state_in state.new, begun_in begun.new)
        ≡ start_read edition (queue_room default (tables_in tables.now)) (tables_in tables.now) text.now }
{
    clear_words(state, begun);
    let setting = Setting { default, edition };
    let read = read_lines(setting, text, tables, state, begun);
    let Ok(place) = read else {
        clear_words(state, begun);
        return read_chain::came_to(read);
    };
    if some_unserved(tables, state) {
        clear_words(state, begun);
        return Place {
            refused: UNSERVED_AT_START,
            place: 0,
        };
    }
    show_queues(state, begun);
    Place { refused: 0, place }
}
