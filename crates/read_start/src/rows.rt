// The line of an instance: its form whole, then the limits, then the clauses of 4; then it is added, its queue pushed, its tokens placed.
ghost use Rattle.std.specs.Prelude.{◌≡◌, ℕ, ◌≤◌, drop};
ghost use Rattle.start_spec.specs.Row.{head_of, held_ok, instance_line, with_row};
ghost use Rattle.start_spec.specs.Text.{instance_at};
ghost use Rattle.read_items.specs.Reads.{Reads};
ghost use Rattle.read_lines.specs.Runs.{RunsTo};
ghost use Rattle.words.specs.Words.{tables_in, begun_in, state_in};
ghost use Rattle.words.specs.Parts.{with_last};
ghost use Rattle.read_start.specs.Start.{queue_room};
ghost use Rattle.read_start.specs.Items.{queue_in};
ghost use Rattle.read_start.specs.Says.{three_form, three_says, row_form, form_says, row_passes, row_in, row_says, stood_came, SmallRow};

use crate::items::{LAST_STAMP, Queue, items_ok, pair_up, push_all, queue_form, rises_to};
use item_spec::Refusal;
use model::smaller;
use read_items::{Digits, Listed, list_then, number_then};
use read_lines::LineFault;
use step_instructions::{add_to, depth_of};
use words::begun::put_begun_last;
use words::state::put_sets;
use words::tables::{behavior_of, behaviors_of, places_of, transitions_of, types};
use words::{BegunWords, StateWords, TableWords};

// How many items a queue holds where the sheet doesn't say, and the number that the sheet opens with.
#[derive(Clone, Copy)]
pub struct Setting {
    pub default: u32,
    pub edition: u32,
}

// The next line's place, and the least that may come next: an id; the number of a use port.
#[derive(Clone, Copy)]
pub struct Stood {
    pub at: usize,
    pub least: usize,
}

// Marked, running and ended.
#[derive(Clone, Copy)]
pub struct Lists {
    pub marked: Listed,
    pub running: Listed,
    pub ended: Listed,
}

// What an instance's line says, but for its queue.
#[derive(Clone, Copy)]
pub struct Row {
    pub id: u32,
    pub kind: u32,
    pub lists: Lists,
}

// Three lists, each ended by a comma.
fn three_lists(s: &[u8], at: usize) -> Option<(Lists, usize)>
    ensures { Reads s.now (three_says result) (three_form (drop at s.now)) }
{
    let (marked, i) = list_then(s, at, b',', Digits::Five)?;
    let (running, j) = list_then(s, i, b',', Digits::Five)?;
    let (ended, next) = list_then(s, j, b',', Digits::Five)?;
    let lists = Lists {
        marked,
        running,
        ended,
    };
    Some((lists, next))
}

// `instance=id,type,marked,running,ended,`
fn row_form(s: &[u8]) -> Option<(Row, usize)>
    ensures { Reads s.now (form_says result) (row_form s.now) }
{
    let i = read_items::past_key(s, 0, b"instance=")?;
    let (id, j) = number_then(s, i, b',', Digits::Five)?;
    let (kind, k) = number_then(s, j, b',', Digits::Five)?;
    let (lists, next) = three_lists(s, k)?;
    Some((Row { id, kind, lists }, next))
}

// The depth, and no more than the eight slots that a queue has.
fn queue_room(default: u32, tables: &TableWords) -> usize
    ensures { result ≡ queue_room default (tables_in tables.now) }
{
    smaller(depth_of(default, tables) as usize, 8)
}

// 3: "a number outside its type or the depth"
fn row_ok(default: u32, tables: &TableWords, row: Row, slots: &[u32], queue: Queue) -> bool
    ensures { result ≡ row_passes (queue_room default (tables_in tables.now)) (tables_in tables.now) row slots.now queue.count queue.last }
{
    let k = row.kind;
    let n = transitions_of(tables, k);
    let named = (row.id < 32) & (k < types(tables));
    let lists = (row.lists.marked.top <= places_of(tables, k))
        & ((row.lists.running.top <= n) & (row.lists.ended.top <= n));
    let short = queue.count <= queue_room(default, tables);
    let known = items_ok(behaviors_of(tables, k), slots, queue.count) & (queue.last <= LAST_STAMP);
    named & (lists & (short & known))
}

// The transitions of the head behavior, "none if the queue is empty"
fn head_of(tables: &TableWords, k: u32, slots: &[u32], count: usize) -> u32
    ensures { result ≡ head_of (tables_in tables.now) k (queue_in slots.now count) }
{
    if count == 0 {
        return 0;
    }
    if slots.len() == 0 {
        return 0;
    }
    behavior_of(tables, k, slots[0] % 8)
}

// 4: "held transitions all in the head behavior .. and none both running and ended", and by ascending id
fn held_ok(tables: &TableWords, least: usize, row: Row, slots: &[u32], count: usize) -> bool
    ensures { result ≡ held_ok (tables_in tables.now) least row.id row.kind row.lists.running.mask row.lists.ended.mask
        (queue_in slots.now count) }
{
    let x = row.lists.running.mask;
    let y = row.lists.ended.mask;
    let head = head_of(tables, row.kind, slots, count);
    let inside = sets::within(sets::joined(x, y), head);
    (least <= row.id as usize) & (!sets::overlaps(x, y) & inside)
}

// `instance=id,type,marked,running,ended,queue`, and `,last` where there are tickets
fn row_line(
    setting: Setting,
    tables: &TableWords,
    least: usize,
    s: &[u8],
    slots: &mut [u32; 16],
) -> Result<(Row, Queue, usize), Refusal>
    ensures reads { Reads s.now (row_says result slots.new)
        (instance_line setting.edition (queue_room setting.default (tables_in tables.now)) (tables_in tables.now) least s.now) }
    ensures small { SmallRow (queue_room setting.default (tables_in tables.now)) s.now slots.new result }
{
    let tickets = setting.edition == 2;
    let Some((row, i)) = row_form(s) else {
        return Err(Refusal::BadForm);
    };
    let Some((queue, next)) = queue_form(s, i, tickets, slots) else {
        return Err(Refusal::BadForm);
    };
    if !row_ok(setting.default, tables, row, slots, queue) {
        return Err(Refusal::BeyondLimit);
    }
    pair_up(slots);
    let rises = !tickets | rises_to(queue.last, slots, queue.count);
    if !(held_ok(tables, least, row, slots, queue.count) & rises) {
        return Err(Refusal::BadClause);
    }
    Ok((row, queue, next))
}

// It is added, its queue pushed, its tokens placed; and its last ticket.
fn with_row(
    tables: &TableWords,
    state: &mut StateWords,
    begun: &mut BegunWords,
    row: Row,
    queue: Queue,
    slots: &[u32],
)
    ensures state { queue.count ≤ 8
        → state_in state.new ≡ with_row (tables_in tables.now) (state_in state.old) (row_in row slots.now queue) }
    ensures last { begun_in begun.new ≡ with_last (begun_in begun.old) row.id queue.last }
{
    add_to(tables, state, row.id, row.kind);
    push_all(state, row.id, slots, queue.count);
    let lists = row.lists;
    put_sets(
        state,
        row.id,
        lists.marked.mask,
        lists.running.mask,
        lists.ended.mask,
    );
    put_begun_last(begun, row.id, queue.last);
}

// One instance, from the part of the text that starts with its line.
pub(crate) fn read_instance(
    setting: Setting,
    text: &[u8],
    stood: Stood,
    tables: &TableWords,
    state: &mut StateWords,
    begun: &mut BegunWords,
) -> Result<Stood, LineFault>
    ensures { (j : ℕ) → RunsTo text.now (stood_came result (state_in state.new) (begun_in begun.new).last)
        (instance_at setting.edition (queue_room setting.default (tables_in tables.now)) (tables_in tables.now) j
        (state_in state.old, stood.least, (begun_in begun.old).last) (drop stood.at text.now)) }
{
    let at = read_items::place_in(text, stood.at);
    let mut slots = [0u32; 16];
    let line = row_line(setting, tables, stood.least, &text[at..], &mut slots);
    let (row, queue, used) = read_chain::line_at(at, line)?;
    with_row(tables, state, begun, row, queue, &slots);
    Ok(Stood {
        at: at + used,
        least: row.id as usize + 1,
    })
}
