// Runs one step of the screen in the hall for each line of standard input, `NAME PLACE=VALUE ..`: bytes of what is lent, the others 0.
// Writes `NAME N PORT PLACE=VALUE ..`: what `hall` answers, `-` for no port, and the bytes of the lent configuration that moved. make.py writes the cases.
#![tactic(auto)]

mod lent;
mod lines;
mod shown;

ghost use Rattle.std.specs.Prelude.{◌≡◌};
ghost use Rattle.words.specs.Parts.{step_of};
ghost use Rattle.hall.specs.Words.{LeftWords};

use hall::{LentConfiguration, Moved, hall, lent_step};
use lent::{BYTES, byte_at, fill_program, fill_state, fill_tables};
use lines::{Line, Part, ended, fresh, is_over, read_byte};
use model::Concerned;
use shown::show;
use step_ports::Answered;
use words::{ProgramWords, StateWords, TableWords};

const STDIN_FILENO: i32 = 0;

const STDOUT_FILENO: i32 = 1;

// The use port's number, and one past them all for none.
fn port_of(answered: Answered) -> u32 {
    let port = answered.port;
    match port {
        Concerned::NoPort => 256,
        Concerned::UsePort(q) => q as u32,
    }
}

fn same_answer(a: Answered, b: Answered) -> bool {
    (a.refused == b.refused) & (port_of(a) == port_of(b))
}

fn same_words(a: &StateWords, b: &StateWords) -> bool {
    for k in 0..930usize {
        if a[k] != b[k] {
            return false;
        }
    }
    true
}

fn moved(answered: Answered, configuration: LentConfiguration) -> Moved
    ensures { result ≡ record { answered = answered; configuration = configuration } }
{
    Moved {
        answered,
        configuration,
    }
}

// Lends a configuration of its own.
fn lend(
    tables: &TableWords,
    program: &ProgramWords,
    before: LentConfiguration,
    verb: u32,
    i: u32,
    n: u32,
) -> Moved
    ensures { LeftWords tables.now program.now before.words (step_of verb i n)
        result.answered result.configuration.words }
{
    let mut lent = before;
    let answered = hall(tables, program, &mut lent, verb, i, n);
    moved(answered, lent)
}

// The lean door is tried on a configuration of its own, and says nothing where it answers and leaves what `hall` does.
fn run_case(name: &[u8; 64], size: usize, bytes: &[u8; BYTES]) {
    let mut tables: TableWords = [0; 2002];
    fill_tables(&mut tables, bytes);
    let mut program: ProgramWords = [0; 1282];
    fill_program(&mut program, bytes);
    let mut state: StateWords = [0; 930];
    fill_state(&mut state, bytes);
    let before = LentConfiguration { words: state };
    let verb = byte_at(bytes, 7018);
    let id = byte_at(bytes, 7019);
    let number = byte_at(bytes, 7020);
    let after = lend(&tables, &program, before, verb, id, number);
    let mut lean = state;
    let again = lent_step(&tables, &program, &mut lean, verb, id, number);
    let answered = after.answered;
    let left = after.configuration.words;
    show(name, size, answered, &state, &left);
    if !same_answer(again, answered) | !same_words(&lean, &left) {
        io::write_all(STDOUT_FILENO, b"the lean door differs\n");
    }
}

// At the end of a line its case is run, and the next line begins with nothing lent.
fn take_byte(line: Line, b: u8, name: &mut [u8; 64], bytes: &mut [u8; BYTES]) -> Line {
    let next = read_byte(line, b, name, bytes);
    let part = next.part;
    match part {
        Part::Done => {
            run_case(name, next.size, bytes);
            *bytes = [0; BYTES];
            fresh()
        }
        _ => next,
    }
}

fn take_block(line: Line, block: &[u8], name: &mut [u8; 64], bytes: &mut [u8; BYTES]) -> Line {
    let mut next = line;
    for b in block {
        next = take_byte(next, *b, name, bytes);
    }
    next
}

fn read_block(line: Line, name: &mut [u8; 64], bytes: &mut [u8; BYTES]) -> Line {
    let mut block = io::large_buffer();
    let n = io::read_full(STDIN_FILENO, &mut block);
    if n == 0 {
        return ended(line);
    }
    take_block(line, &block[..n], name, bytes)
}

// Nothing says that the input ends, so the blocks are counted up to a number that no run reaches.
fn read_all(name: &mut [u8; 64], bytes: &mut [u8; BYTES]) -> Line {
    let mut line = fresh();
    for _ in 0..u64::MAX {
        line = read_block(line, name, bytes);
        if is_over(line) {
            return line;
        }
    }
    line
}

fn main() {
    let mut name = [0u8; 64];
    let mut bytes = [0u8; BYTES];
    let line = read_all(&mut name, &mut bytes);
    let part = line.part;
    match part {
        Part::Bad => {
            io::write_all(STDOUT_FILENO, b"bad case\n");
        }
        _ => {}
    }
}
