// A configuration as its 1,764 bytes, and the line that says which of them moved.
ghost use Rattle.std.specs.Prelude.{◌≤◌, ◌<◌};

use model::{Concerned, wide};
use step_ports::Answered;
use words::StateWords;
use words::state::{done, ended, kind, marked, present, queued, running, server, slot_at};
use write_items::{write_byte, write_key, write_number};

const STDOUT_FILENO: i32 = 1;

const BYTES: usize = 1764;

const ROOM: usize = 8192;

fn put_byte(out: &mut [u8; BYTES], at: usize, x: u32) {
    if at < BYTES {
        out[at] = (x % 256) as u8;
    }
}

fn put_pair(out: &mut [u8; BYTES], at: usize, x: u32)
    requires { at ≤ 1763 }
{
    put_byte(out, at, x);
    put_byte(out, at + 1, x / 256);
}

fn put_long(out: &mut [u8; BYTES], at: usize, x: u32)
    requires { at ≤ 1761 }
{
    put_pair(out, at, x);
    put_pair(out, at + 2, x / 65536);
}

fn put_instance(out: &mut [u8; BYTES], state: &StateWords, i: u32)
    requires { i < 32 }
{
    let at = (i as usize) * 15;
    put_byte(out, at, if present(state, i) { 1 } else { 0 });
    put_byte(out, at + 1, kind(state, i));
    put_long(out, at + 2, marked(state, i));
    put_long(out, at + 6, running(state, i));
    put_long(out, at + 10, ended(state, i));
    put_byte(out, at + 14, queued(state, i));
}

// Use port n, queue slot n and instance n, as far as there are so many.
fn put_row(out: &mut [u8; BYTES], state: &StateWords, n: u32)
    requires { n < 512 }
{
    let at = n as usize;
    put_pair(out, 736 + at * 2, server(state, n));
    if n < 256 {
        put_byte(out, 480 + at, slot_at(state, at));
    }
    if n < 32 {
        put_instance(out, state, n);
    }
}

fn put_state(out: &mut [u8; BYTES], state: &StateWords) {
    for n in 0..512u32 {
        put_row(out, state, n);
    }
    put_long(out, 1760, done(state));
}

// Nothing for a byte that stands as it was lent.
fn write_moved(line: &mut [u8], at: usize, i: usize, old: u8, new: u8) -> usize {
    if old == new {
        return at;
    }
    let blank = write_byte(line, at, b' ');
    let place = write_number(line, blank, i);
    let sign = write_byte(line, place, b'=');
    write_number(line, sign, wide(new))
}

fn write_all_moved(
    line: &mut [u8],
    from: usize,
    before: &[u8; BYTES],
    after: &[u8; BYTES],
) -> usize {
    let mut at = from;
    for i in 0..BYTES {
        at = write_moved(line, at, i, before[i], after[i]);
    }
    at
}

fn write_name(line: &mut [u8], name: &[u8], size: usize) -> usize {
    if name.len() < size {
        return write_key(line, 0, name);
    }
    write_key(line, 0, &name[..size])
}

fn print_line(line: &[u8], size: usize) {
    if size <= line.len() {
        io::write_all(STDOUT_FILENO, &line[..size]);
    }
}

// The use port concerned, `-` for none.
fn write_port(line: &mut [u8], at: usize, port: Concerned) -> usize {
    match port {
        Concerned::NoPort => write_byte(line, at, b'-'),
        Concerned::UsePort(q) => write_number(line, at, wide(q)),
    }
}

// The number, and the use port that it is about.
fn write_answered(line: &mut [u8], at: usize, answered: Answered) -> usize {
    let number = write_number(line, at, answered.refused as usize);
    let blank = write_byte(line, number, b' ');
    let port = answered.port;
    write_port(line, blank, port)
}

fn write_line(
    line: &mut [u8],
    name: &[u8],
    size: usize,
    answered: Answered,
    before: &[u8; BYTES],
    after: &[u8; BYTES],
) -> usize {
    let named = write_name(line, name, size);
    let blank = write_byte(line, named, b' ');
    let told = write_answered(line, blank, answered);
    let moved = write_all_moved(line, told, before, after);
    write_byte(line, moved, b'\n')
}

pub(crate) fn show(
    name: &[u8],
    size: usize,
    answered: Answered,
    before: &StateWords,
    after: &StateWords,
) {
    let mut old = [0u8; BYTES];
    put_state(&mut old, before);
    let mut new = [0u8; BYTES];
    put_state(&mut new, after);
    let mut line = [0u8; ROOM];
    let end = write_line(&mut line, name, size, answered, &old, &new);
    print_line(&line, end);
}
