// The report, the start (`start`) and the fault lines: each line is written into the part of the lent buffer that is still free, and its writer answers the bytes used.
// Promised: every byte of the lent buffer and the bytes used, cut where there is no room, for every state, reachable or not.
#![tactic(auto)]

pub mod start;

ghost use Rattle.std.specs.Prelude.{◌≡◌};
ghost use Rattle.model.specs.View.{instance, connection_of, queue_of};
ghost use Rattle.item_spec.specs.Write.{in_turn};
ghost use Rattle.sets.specs.Test.{tally};
ghost use Rattle.report_spec.specs.Report.{slot_text, queue_text, count_text, port_text, instance_text, connection_text, instance_at, connections_text, report};
ghost use Rattle.report_spec.specs.Faults.{text_text, fault_text};
ghost use Rattle.rules_spec.specs.Standing.{standing};
ghost use Rattle.write_items.specs.Written.{Written};
ghost use Rattle.words.specs.Words.{state_in};
ghost use Rattle.write_report.specs.Lines.{fields_part, ending_part, head_part, instances_part, connections_part, reached};

use model::{Concerned, Text};
use words::StateWords;
use words::state::{
    done, ended, entries, kind, marked, present, provideport, provider, queued, running, server,
    slot,
};
use write_items::{write_byte, write_key, write_mask, write_number};

// key=number
pub fn write_count(t: &mut [u8], key: &[u8], v: usize) -> usize
    ensures { Written t.old (count_text key.now v) t.new 0 result }
{
    let mut at = write_key(t, 0, key);
    at = write_number(t, at, v);
    write_byte(t, at, b'\n')
}

// What a slot of a queue holds: a behavior, and its ticket where it has one.
fn write_slot(t: &mut [u8], at: usize, s: u32) -> usize
    ensures { Written t.old (slot_text s) t.new at result }
{
    let p = write_number(t, at, (s % 8) as usize);
    if s < 8 {
        return p;
    }
    let q = write_byte(t, p, b':');
    write_number(t, q, (s / 8 - 1) as usize)
}

// "The queue is joined by `+`, head first, `-` when empty".
fn write_queue(t: &mut [u8], at: usize, state: &StateWords, i: u32) -> usize
    ensures { Written t.old (queue_text (queue_of (state_in state.now) i)) t.new at result }
{
    let n = queued(state, i);
    if n == 0 {
        return write_byte(t, at, b'-');
    }
    let mut p = write_slot(t, at, slot(state, i, 0));
    for s in 1..n {
        p = write_byte(t, p, b'+');
        p = write_slot(t, p, slot(state, i, s));
    }
    p
}

// instance=id,type,marked,running,ended,queue, up to the line's end
fn write_fields(t: &mut [u8], state: &StateWords, i: u32) -> usize
    ensures { Written t.old
        (fields_part i (instance (state_in state.now) i) (queue_of (state_in state.now) i)) t.new 0 result }
{
    let mut at = write_key(t, 0, b"instance=");
    at = write_number(t, at, i as usize);
    at = write_byte(t, at, b',');
    at = write_number(t, at, kind(state, i) as usize);
    at = write_byte(t, at, b',');
    at = write_mask(t, at, marked(state, i));
    at = write_byte(t, at, b',');
    at = write_mask(t, at, running(state, i));
    at = write_byte(t, at, b',');
    at = write_mask(t, at, ended(state, i));
    at = write_byte(t, at, b',');
    write_queue(t, at, state, i)
}

fn write_instance(t: &mut [u8], state: &StateWords, i: u32) -> usize
    ensures { Written t.old
        (instance_text i (instance (state_in state.now) i) (queue_of (state_in state.now) i)) t.new 0 result }
{
    let at = write_fields(t, state, i);
    write_byte(t, at, b'\n')
}

// connection=user,useport,provider,provideport, of the use port of number s with the server x
fn write_connection(t: &mut [u8], s: u32, x: u32) -> usize
    ensures { Written t.old (connection_text (connection_of s x)) t.new 0 result }
{
    let mut at = write_key(t, 0, b"connection=");
    at = write_number(t, at, (s / 16) as usize);
    at = write_byte(t, at, b',');
    at = write_number(t, at, (s % 16) as usize);
    at = write_byte(t, at, b',');
    at = write_number(t, at, provider(x) as usize);
    at = write_byte(t, at, b',');
    at = write_number(t, at, provideport(x) as usize);
    write_byte(t, at, b'\n')
}

// An instance's line, nothing where it is absent.
fn write_present(t: &mut [u8], state: &StateWords, i: u32) -> usize
    ensures { Written t.old (instance_at (state_in state.now) i) t.new 0 result }
{
    if present(state, i) {
        write_instance(t, state, i)
    } else {
        0
    }
}

// The lines of the instances by id.
fn write_instance_lines(t: &mut [u8], state: &StateWords) -> usize
    ensures { Written t.old (in_turn (instance_at (state_in state.now)) 32) t.new 0 result }
{
    let mut used: usize = 0;
    for i in 0..32 {
        used += write_present(&mut t[used..], state, i);
    }
    used
}

// The lines of the n connections by user and then port, which is the table's own order: past the last of them nothing is looked at.
fn write_connection_lines(t: &mut [u8], state: &StateWords, n: u32) -> usize
    requires { n ≡ (standing (state_in state.now)).count }
    ensures { Written t.old (connections_text (state_in state.now)) t.new 0 result }
{
    let mut used: usize = 0;
    let mut left = n;
    for s in 0..512 {
        if left == 0 {
            return used;
        }
        let x = server(state, s);
        if x != 0 {
            used += write_connection(&mut t[used..], s, x);
            left -= 1;
        }
    }
    used
}

// How many instances are present.
fn tally(state: &StateWords) -> usize
    ensures { result ≡ tally 32 (λ i. (instance (state_in state.now) i).present) }
{
    let mut n: usize = 0;
    for i in 0..32 {
        if present(state, i) {
            n += 1;
        }
    }
    n
}

// port=, `-` where no use port is concerned
fn write_port(t: &mut [u8], port: Concerned) -> usize
    ensures { Written t.old (port_text port) t.new 0 result }
{
    match port {
        Concerned::NoPort => write_key(t, 0, b"port=-\n"),
        Concerned::UsePort(q) => write_count(t, b"port=", q as usize),
    }
}

// refused=, port=
fn write_ending(t: &mut [u8], refused: u32, port: Concerned) -> usize
    ensures { Written t.old (ending_part refused port) t.new 0 result }
{
    let used = write_count(t, b"refused=", refused as usize);
    used + write_port(&mut t[used..], port)
}

// accepted=, refused=, port=, next=
fn write_head(t: &mut [u8], accepted: u32, refused: u32, port: Concerned, next: u32) -> usize
    ensures { Written t.old (head_part accepted refused port next) t.new 0 result }
{
    let mut used = write_count(t, b"accepted=", accepted as usize);
    used += write_ending(&mut t[used..], refused, port);
    used + write_count(&mut t[used..], b"next=", next as usize)
}

// instances= and a line for each that is present
fn write_instances(t: &mut [u8], state: &StateWords) -> usize
    ensures { Written t.old (instances_part (state_in state.now)) t.new 0 result }
{
    let used = write_count(t, b"instances=", tally(state));
    used + write_instance_lines(&mut t[used..], state)
}

// connections= and a line for each
fn write_connections(t: &mut [u8], state: &StateWords) -> usize
    ensures { Written t.old (connections_part (state_in state.now)) t.new 0 result }
{
    let n = entries(state);
    let used = write_count(t, b"connections=", n as usize);
    used + write_connection_lines(&mut t[used..], state, n)
}

// The whole report of a walk that came so far.
pub fn write_report(
    t: &mut [u8],
    accepted: u32,
    refused: u32,
    port: Concerned,
    state: &StateWords,
) -> usize
    ensures { Written t.old (report (reached accepted refused port state.now)) t.new 0 result }
{
    let mut used = write_head(t, accepted, refused, port, done(state));
    used += write_instances(&mut t[used..], state);
    used + write_connections(&mut t[used..], state)
}

// text=, nothing where neither text is at fault
fn write_text(t: &mut [u8], x: Text) -> usize
    ensures { Written t.old (text_text x) t.new 0 result }
{
    match x {
        Text::Neither => 0,
        Text::Sheet => write_key(t, 0, b"text=sheet\n"),
        Text::Answer => write_key(t, 0, b"text=answer\n"),
        Text::Times => write_key(t, 0, b"text=times\n"),
        Text::Start => write_key(t, 0, b"text=start\n"),
    }
}

// text=, line=, refused=
pub fn write_fault(t: &mut [u8], x: Text, line: usize, refused: u8) -> usize
    ensures { Written t.old (fault_text x line refused) t.new 0 result }
{
    let mut used = write_text(t, x);
    used += write_count(&mut t[used..], b"line=", line);
    used + write_count(&mut t[used..], b"refused=", refused as usize)
}
