// What was pushed to an instance since its `add`, read off the instructions done, from the last one back, and then off what the paper starts with.
ghost use Rattle.std.specs.Prelude.{◌≡◌, cond, List, ℕ, ◌+◌, ◌*◌, ◌<◌, ltb, get_or};
ghost use Rattle.model.specs.View.{stamp_in, instance};
ghost use Rattle.rules_spec.specs.PushB.{pushb_check, pushed};
ghost use Rattle.rules_spec.specs.Wait.{wait_check};
ghost use Rattle.rules_spec.specs.Action.{ticketed, for_one};
ghost use Rattle.rules_spec.specs.Tickets.{ticket_push, push_of, is_add_of, is_push_to, begun_to, pushed_to, not_above, has_stamp, last_stamp};
ghost use Rattle.words.specs.Words.{tables_in, begun_in, program_from, state_in};
ghost use Rattle.words.specs.Parts.{said, in_word};

use crate::{push_to, pushb_check, wait_one_check};
use words::begun::{begun_last, begun_slot};
use words::program::{InstructionWords, instruction};
use words::{ProgramWords, StateWords, TableWords};

fn adds(line: InstructionWords, i: u32) -> bool
    ensures { result ≡ is_add_of i (said line) }
{
    (line.id == i) & (line.verb == 0)
}

fn pushes(line: InstructionWords, i: u32) -> bool
    ensures { result ≡ is_push_to i (said line) }
{
    (line.id == i) & ((line.verb == 2) | (line.verb == 6))
}

// One more than the ticket, and 0 for a push without one.
fn stamp_of(line: InstructionWords) -> usize
    ensures { result ≡ stamp_in (push_of (said line)) }
{
    let behavior = (line.number / 8) as usize;
    if line.verb == 6 {
        (line.provider as usize) + 1 + behavior
    } else {
        behavior
    }
}

// What a push with a ticket puts into its slot, and 0 where that is no word.
fn ticket_push(line: InstructionWords) -> u32
    ensures { result ≡ in_word (ticket_push (said line)) }
{
    let s = ((line.provider as usize) + 1) * 8 + line.number as usize;
    u32::try_from(s).unwrap_or(0)
}

// The stamp of queue slot r that instance i starts with.
fn begun_stamp(begun: &[u32], i: u32, r: u32) -> u32
    ensures { result ≡ stamp_in (get_or (begun_in begun.now).queue (i * 8 + r) 0) }
{
    begun_slot(begun, (i as usize) * 8 + r as usize) / 8
}

// The stamp of the last push before the first instruction.
fn begun_tail(begun: &[u32], i: u32) -> u32
    ensures { (program : List ℕ) → result ≡ last_stamp (begun_to (program_from program begun.now) i) }
{
    let mut last = begun_last(begun, i);
    for r in 0..8 {
        let stamp = begun_stamp(begun, i, r);
        if stamp == 0 {
            return last;
        }
        last = stamp;
    }
    last
}

// This ticket was pushed before the first instruction.
fn begun_with(begun: &[u32], i: u32, ticket: u32) -> bool
    ensures { (program : List ℕ) → result ≡ has_stamp (ticket + 1) (begun_to (program_from program begun.now) i) }
{
    if begun_stamp(begun, i, 0) == 0 {
        return begun_last(begun, i) as usize == (ticket as usize) + 1;
    }
    for r in 0..8 {
        let stamp = begun_stamp(begun, i, r);
        if stamp == 0 {
            return false;
        }
        if stamp as usize == (ticket as usize) + 1 {
            return true;
        }
    }
    false
}

// After the first n instructions, the stamp of the last push to instance i: one more than its ticket, and 0 for none.
pub fn last_stamp(program: &ProgramWords, begun: &[u32], i: u32, n: u32) -> usize
    ensures { result ≡ last_stamp (pushed_to (program_from program.now begun.now) i n) }
{
    for at in (0..n).rev() {
        let line = instruction(program, at);
        if adds(line, i) {
            return 0;
        }
        if pushes(line, i) {
            return stamp_of(line);
        }
    }
    begun_tail(begun, i) as usize
}

// This ticket is not above it.
fn is_late(program: &ProgramWords, begun: &[u32], i: u32, n: u32, ticket: u32) -> bool
    ensures { result ≡ not_above (ticket + 1) (pushed_to (program_from program.now begun.now) i n) }
{
    let stamp = (ticket as usize) + 1;
    stamp <= last_stamp(program, begun, i, n)
}

// This ticket was pushed to it.
fn was_pushed(program: &ProgramWords, begun: &[u32], i: u32, n: u32, ticket: u32) -> bool
    ensures { result ≡ has_stamp (ticket + 1) (pushed_to (program_from program.now begun.now) i n) }
{
    let stamp = (ticket as usize) + 1;
    for at in (0..n).rev() {
        let line = instruction(program, at);
        if adds(line, i) {
            return false;
        }
        if pushes(line, i) & (stamp_of(line) == stamp) {
            return true;
        }
    }
    begun_with(begun, i, ticket)
}

// A push with a ticket, after so many instructions. Where it is allowed there is room for one more.
pub fn push_ticket_check(
    default: u32,
    tables: &TableWords,
    program: &ProgramWords,
    begun: &[u32],
    state: &StateWords,
    at: u32,
    line: InstructionWords,
) -> u32
    ensures value { result ≡ pushb_check default (tables_in tables.now) (state_in state.now) line.id
        (ticketed (pushed_to (program_from program.now begun.now) line.id at) (said line)) }
    ensures room { result ≡ 0 → (instance (state_in state.now) line.id).queued < 4294967295 }
{
    let late = is_late(program, begun, line.id, at, line.provider);
    pushb_check(default, tables, state, line.id, line.number, late)
}

// Where a word counts them no longer, nothing changes.
pub fn push_ticket_to(state: &mut StateWords, line: InstructionWords)
    ensures { state_in state.new ≡ cond (ltb (instance (state_in state.old) line.id).queued 4294967295)
        (pushed (state_in state.old) line.id (in_word (ticket_push (said line)))) (state_in state.old) }
{
    let s = ticket_push(line);
    push_to(state, line.id, s);
}

// A wait with a ticket, after so many instructions.
pub fn wait_ticket_check(
    program: &ProgramWords,
    begun: &[u32],
    state: &StateWords,
    at: u32,
    line: InstructionWords,
) -> u32
    ensures { result ≡ wait_check (state_in state.now)
        (for_one (pushed_to (program_from program.now begun.now) line.id at) (said line)) }
{
    let made = was_pushed(program, begun, line.id, at, line.number);
    wait_one_check(state, line.id, line.number, made)
}
