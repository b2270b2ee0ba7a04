// Runs each paper, answer and times that an argument names, NAME.sheet, NAME.answer, NAME.times and, where there is one, NAME.start: its name, what `timing`
// prints, and the place of the line at fault.
// Promised by `timing_lib`: every byte between the name and the place, and the place. A triple is a line of triples.py, and make.py writes the rest.
#![tactic(auto)]

use judge_spec::{LENT_BYTES, Paper};

const STDOUT_FILENO: i32 = 1;

fn print_case(paper: Paper<'_>, answer: &[u8], times: &[u8]) {
    let mut out = [0u8; LENT_BYTES];
    let used = timing_lib::timed_print(paper, answer, times, &mut out);
    io::write_all(STDOUT_FILENO, &out[..used]);
    sitting_shown::print_place(timing_lib::timed_place(paper, answer, times, LENT_BYTES));
}

fn run_case(rt: &HostRuntime, i: usize) {
    let mut name = [0u8; 64];
    let k = program_io::read_argument(rt, i, &mut name);
    io::write_all(STDOUT_FILENO, b"case=");
    io::write_all(STDOUT_FILENO, &name[..k]);
    io::write_all(STDOUT_FILENO, b"\n");
    let mut sheet = [0u8; 32769];
    let n = sitting_shown::read_named(rt, &name[..k], b".sheet", &mut sheet);
    let mut answer = [0u8; 32769];
    let m = sitting_shown::read_named(rt, &name[..k], b".answer", &mut answer);
    let mut times = [0u8; 32769];
    let l = sitting_shown::read_named(rt, &name[..k], b".times", &mut times);
    let mut path = [0u8; 80];
    let p = sitting_shown::path_of(&mut path, &name[..k], b".start");
    let mut start = [0u8; 8193];
    let begun = program_io::read_start(rt, &path[..p], &mut start);
    let paper = Paper {
        sheet: &sheet[..n],
        start: begun.map(|b| &start[..b]),
    };
    print_case(paper, &answer[..m], &times[..l]);
}

fn main(rt: HostRuntime) {
    let count = program_io::argument_count(&rt);
    for i in 1..count {
        run_case(&rt, i);
    }
}
