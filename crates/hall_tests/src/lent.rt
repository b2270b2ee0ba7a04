// What is lent, as words, from its 7,021 bytes, little-endian: tables, program at 3,970, configuration at 5,254, step at 7,018.
// The configuration: 32 instances of 15 bytes each; at 5,734 the queue slots, a byte each; at 5,990 who serves each of the 512 use ports, two
// bytes each, 16 ports for each instance; at 7,014 the instructions done, four bytes.
ghost use Rattle.std.specs.Prelude.{◌≤◌, ◌<◌};

use words::program::{put_edition, put_instruction, put_instructions};
use words::state::{clear_state, put_bare, put_done, put_queued, put_server, put_sets, put_slot};
use words::tables::{put_behavior, put_ends, put_head, put_port, put_type};
use words::{ProgramWords, StateWords, TableWords};

pub const BYTES: usize = 7021;

fn long(x: u8) -> u32 {
    x as u32
}

pub(crate) fn byte_at(bytes: &[u8; BYTES], at: usize) -> u32 {
    if at < BYTES { long(bytes[at]) } else { 0 }
}

fn pair_at(bytes: &[u8; BYTES], at: usize) -> u32
    requires { at ≤ 7019 }
{
    byte_at(bytes, at) | (byte_at(bytes, at + 1) << 8)
}

fn mask_at(bytes: &[u8; BYTES], at: usize) -> u32
    requires { at ≤ 7017 }
{
    pair_at(bytes, at) | (pair_at(bytes, at + 2) << 16)
}

fn fill_type(tables: &mut TableWords, bytes: &[u8; BYTES], k: u32)
    requires { k < 16 }
{
    let at = 2 + (k as usize) * 8;
    let places = byte_at(bytes, at);
    let initial = mask_at(bytes, at + 1);
    let transitions = byte_at(bytes, at + 5);
    let behaviors = byte_at(bytes, at + 6);
    let ports = byte_at(bytes, at + 7);
    put_type(tables, k, places, initial, transitions, behaviors, ports);
}

// Transition j, port j, behavior j and type j, as far as there are so many.
fn fill_row(tables: &mut TableWords, bytes: &[u8; BYTES], j: u32)
    requires { j < 512 }
{
    let at = j as usize;
    put_ends(
        tables,
        j,
        byte_at(bytes, 130 + at),
        byte_at(bytes, 642 + at),
    );
    if j < 256 {
        let uses = byte_at(bytes, 1666 + at);
        put_port(
            tables,
            j,
            uses,
            mask_at(bytes, 1922 + at * 4),
            mask_at(bytes, 2946 + at * 4),
        );
    }
    if j < 128 {
        put_behavior(tables, j, mask_at(bytes, 1154 + at * 4));
    }
    if j < 16 {
        fill_type(tables, bytes, j);
    }
}

pub(crate) fn fill_tables(tables: &mut TableWords, bytes: &[u8; BYTES]) {
    put_head(tables, byte_at(bytes, 0), byte_at(bytes, 1));
    for j in 0..512u32 {
        fill_row(tables, bytes, j);
    }
}

fn fill_instruction(program: &mut ProgramWords, bytes: &[u8; BYTES], n: u32)
    requires { n < 256 }
{
    let at = 3970 + (n as usize) * 5;
    let verb = byte_at(bytes, at);
    let id = byte_at(bytes, at + 1);
    let number = byte_at(bytes, at + 2);
    let provider = byte_at(bytes, at + 3);
    let provideport = byte_at(bytes, at + 4);
    put_instruction(program, n, verb, id, number, provider, provideport);
}

pub(crate) fn fill_program(program: &mut ProgramWords, bytes: &[u8; BYTES]) {
    put_instructions(program, mask_at(bytes, 5250));
    put_edition(program, 1);
    for n in 0..256u32 {
        fill_instruction(program, bytes, n);
    }
}

fn fill_instance(state: &mut StateWords, bytes: &[u8; BYTES], i: u32)
    requires { i < 32 }
{
    let at = 5254 + (i as usize) * 15;
    let kind = byte_at(bytes, at + 1);
    let marked = mask_at(bytes, at + 2);
    put_bare(state, i, byte_at(bytes, at) != 0, kind, marked);
    put_sets(
        state,
        i,
        marked,
        mask_at(bytes, at + 6),
        mask_at(bytes, at + 10),
    );
    put_queued(state, i, byte_at(bytes, at + 14));
}

// Use port n, queue slot n and instance n, as far as there are so many.
fn fill_slot(state: &mut StateWords, bytes: &[u8; BYTES], n: u32)
    requires { n < 512 }
{
    let at = n as usize;
    put_server(state, at, pair_at(bytes, 5990 + at * 2));
    if n < 256 {
        put_slot(state, at, byte_at(bytes, 5734 + at));
    }
    if n < 32 {
        fill_instance(state, bytes, n);
    }
}

pub(crate) fn fill_state(state: &mut StateWords, bytes: &[u8; BYTES]) {
    clear_state(state);
    for n in 0..512u32 {
        fill_slot(state, bytes, n);
    }
    put_done(state, mask_at(bytes, 7014));
}
