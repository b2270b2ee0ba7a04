// A test program: each two arguments name a sheet and an answer. It prints their names and what `rewrite` answers, how many bytes of the lent buffer are as
// they were found, then the rewritten sheet and what `judge` prints of it and the answer. Promised by `rewrite_lib` and `judge_lib`; make.py writes the cases.
#![tactic(auto)]

use judge_spec::{LENT_BYTES, Paper};
use program_io::show_count;
use read_lines::LONGEST;
use rewrite_lib::Rewritten;

const STDOUT_FILENO: i32 = 1;

// What every byte of the buffer holds before, and no sheet has.
const FOUND: u8 = b'#';

// How many bytes are as they were found.
fn as_found(buffer: &[u8]) -> usize {
    let mut n: usize = 0;
    for b in buffer {
        n += usize::from(*b == FOUND);
    }
    n
}

fn print_answered(done: Rewritten, found: usize) {
    show_count(STDOUT_FILENO, b"refused=", model::wide(done.refused));
    show_count(STDOUT_FILENO, b"line=", done.line);
    show_count(STDOUT_FILENO, b"written=", done.written);
    show_count(STDOUT_FILENO, b"found=", found);
}

// What the judge makes of a rewritten sheet.
fn print_judged(sheet: &[u8], answer: &[u8]) {
    io::write_all(STDOUT_FILENO, sheet);
    let mut report = [0u8; LENT_BYTES];
    let used = judge_lib::print(Paper { sheet, start: None }, answer, &mut report);
    io::write_all(STDOUT_FILENO, &report[..used]);
}

// Each text has room for a byte more than it may have.
fn run_case(rt: &HostRuntime, first: usize, second: usize) {
    let mut name = [0u8; 64];
    let k = program_io::read_argument(rt, first, &mut name);
    let mut sheet = [0u8; 32769];
    let n = program_io::read_named(rt, &name[..k], &mut sheet).unwrap_or(0);
    let mut other = [0u8; 64];
    let l = program_io::read_argument(rt, second, &mut other);
    let mut answer = [0u8; 32769];
    let m = program_io::read_named(rt, &other[..l], &mut answer).unwrap_or(0);
    io::write_all(STDOUT_FILENO, b"case=");
    io::write_all(STDOUT_FILENO, &name[..k]);
    io::write_all(STDOUT_FILENO, b",");
    io::write_all(STDOUT_FILENO, &other[..l]);
    io::write_all(STDOUT_FILENO, b"\n");
    rewrite_and_judge(&sheet[..n], &answer[..m]);
}

fn rewrite_and_judge(sheet: &[u8], answer: &[u8]) {
    let mut out = [FOUND; LONGEST];
    let done = rewrite_lib::rewrite(sheet, &mut out);
    print_answered(done, as_found(&out));
    if done.refused == 0 {
        let used = done.written;
        print_judged(&out[..used], answer);
    }
}

fn main(rt: HostRuntime) {
    let count = program_io::argument_count(&rt);
    for pair in 0..count / 2 {
        let before = 2 * pair;
        run_case(&rt, before + 1, before + 2);
    }
}
