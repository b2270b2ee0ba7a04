// Timing as a program: the sheet from sheet.txt and the times from times.txt in the current folder, the answer from standard input, and out goes what
// `timing_lib::timed_print` says. Promised there: every byte that is printed. Shown here: no index is out of range, and the program ends.
// Called with an argument, as bin/timing calls it, it tells on descriptor 3 that all was written, and whether the answer was read.
#![tactic(auto)]

use judge_spec::{LENT_BYTES, Paper};

// Each text has room for a byte more than it may have, so that a longer one still gets 1 or 40.
fn main(rt: HostRuntime) {
    let mut sheet = [0u8; 32769];
    // A missing file counts as empty.
    let n = program_io::read_as_far(&rt, b"sheet.txt", &mut sheet);
    let mut times = [0u8; 32769];
    let k = program_io::read_as_far(&rt, b"times.txt", &mut times);
    let mut start = [0u8; 8193];
    let begun = program_io::read_start(&rt, b"start.txt", &mut start);
    let mut answer = [0u8; 32769];
    let mut input = rt.stdin();
    let read = program_io::read_answer(&mut input, &mut answer, b"timing: standard input");
    let m = read.unwrap_or(0);
    let paper = Paper {
        sheet: &sheet[..n],
        start: begun.map(|b| &start[..b]),
    };
    let mut out = [0u8; LENT_BYTES];
    let used = timing_lib::timed_print(paper, &answer[..m], &times[..k], &mut out);
    program_io::finish(&rt, &out[..used], read.is_none());
}
