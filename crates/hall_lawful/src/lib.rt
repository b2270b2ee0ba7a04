// The tests behind number 7: whether lent tables, program and step break a rule of a sheet or an answer.
// Promised: each answers its definition (read_spec/specs/Lawful) for all that can be lent; what is past a count is not looked at.
#![tactic(auto)]

mod types;

ghost use Rattle.std.specs.Prelude.{◌≡◌, ◌&&◌, eqb, get_or};
ghost use Rattle.model.specs.Empty.{no_instruction};
ghost use Rattle.read_spec.specs.Lawful.{tables_lawful, verb_lawful, instruction_lawful, program_lawful, step_lawful};
ghost use Rattle.words.specs.Words.{tables_in, program_in};
ghost use Rattle.words.specs.Parts.{instruction_of, step_of};

use types::types_lawful;
use words::program::{edition, instruction, instructions};
use words::tables::{depth, types};
use words::{ProgramWords, TableWords};

// Every type counts, also one that no instance has; more than 16 are not looked at.
pub fn tables_lawful(tables: &TableWords) -> bool
    ensures { result ≡ tables_lawful (tables_in tables.now) }
{
    let n = types(tables);
    let head = (depth(tables) <= 8) & ((1 <= n) & (n <= 16));
    if !head {
        return false;
    }
    types_lawful(tables, n)
}

// A code that no line says is refused like a number beyond its limit.
fn verb_lawful(n: u32, verb: u32, number: u32, provider: u32, provideport: u32) -> bool
    ensures { result ≡ verb_lawful 1 n (instruction_of verb 0 number provider provideport) }
{
    match verb {
        0 => number < n,
        1 => true,
        2 => number <= 7,
        3 => (number <= 15) & ((provider <= 31) & (provideport <= 15)),
        4 => (number <= 15) & ((provider <= 31) & (provideport <= 15)),
        5 => true,
        _ => false,
    }
}

fn instruction_lawful(n: u32, program: &ProgramWords, j: u32) -> bool
    ensures { result ≡ instruction_lawful 1 n (get_or (program_in program.now).instructions j no_instruction) }
{
    let k = instruction(program, j);
    (k.id <= 31) & verb_lawful(n, k.verb, k.number, k.provider, k.provideport)
}

// Every instruction counts, done or not. The hall keeps to sheets that open with `sheet=1`.
pub fn program_lawful(n: u32, program: &ProgramWords) -> bool
    ensures { result ≡ (eqb (program_in program.now).edition 1 && program_lawful n (program_in program.now)) }
{
    if edition(program) != 1 {
        return false;
    }
    let count = instructions(program);
    if 256 < count {
        return false;
    }
    for j in 0..count {
        if !instruction_lawful(n, program, j) {
            return false;
        }
    }
    true
}

pub fn step_lawful(verb: u32, id: u32, number: u32) -> bool
    ensures { result ≡ step_lawful (step_of verb id number) }
{
    match verb {
        0 => true,
        1 => (id <= 31) & (number <= 15),
        2 => (id <= 31) & (number <= 31),
        3 => (id <= 31) & (number <= 15),
        4 => id <= 31,
        _ => false,
    }
}
