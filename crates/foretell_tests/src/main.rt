// Runs each paper that an argument names, NAME.sheet and, where there is one, NAME.start: its name, and what `foretell` prints of it.
// Promised by `foretell_lib`: every byte after the name. A paper is a line of cases.py, and make.py writes the rest.
#![tactic(auto)]

use foretell_lib::FORESEEN_BYTES;
use judge_spec::Paper;

const STDOUT_FILENO: i32 = 1;

fn run_case(rt: &HostRuntime, i: usize) {
    let mut name = [0u8; 64];
    let k = program_io::read_argument(rt, i, &mut name);
    let mut sheet = [0u8; 32769];
    let n = sitting_shown::read_named(rt, &name[..k], b".sheet", &mut sheet);
    let mut path = [0u8; 80];
    let l = sitting_shown::path_of(&mut path, &name[..k], b".start");
    let mut start = [0u8; 8193];
    let begun = program_io::read_start(rt, &path[..l], &mut start);
    let paper = Paper {
        sheet: &sheet[..n],
        start: begun.map(|b| &start[..b]),
    };
    let mut out = [0u8; FORESEEN_BYTES];
    let used = foretell_lib::foretell_print(paper, &mut out);
    io::write_all(STDOUT_FILENO, b"case=");
    io::write_all(STDOUT_FILENO, &name[..k]);
    io::write_all(STDOUT_FILENO, b"\n");
    io::write_all(STDOUT_FILENO, &out[..used]);
}

fn main(rt: HostRuntime) {
    let count = program_io::argument_count(&rt);
    for i in 1..count {
        run_case(&rt, i);
    }
}
