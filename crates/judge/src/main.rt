// The judge as a program: the sheet from sheet.txt in the current folder, the answer from standard input, and out goes what `judge_lib::print` says.
// Promised there: every byte that is printed. Shown here: no index is out of range, and the program ends.
// Called with an argument, as bin/judge calls it, it tells on descriptor 3 that all was written, and whether the answer was read.
#![tactic(auto)]

use judge_spec::{LENT_BYTES, Paper};

// Each text has room for a byte more than it may have, so that a longer one still gets 1.
fn main(rt: HostRuntime) {
    let mut sheet = [0u8; 32769];
    // A missing file counts as empty.
    let n = program_io::read_as_far(&rt, b"sheet.txt", &mut sheet);
    let mut start = [0u8; 8193];
    let begun = program_io::read_start(&rt, b"start.txt", &mut start);
    let mut answer = [0u8; 32769];
    let mut input = rt.stdin();
    let read = program_io::read_answer(&mut input, &mut answer, b"judge: standard input");
    let m = read.unwrap_or(0);
    let paper = Paper {
        sheet: &sheet[..n],
        start: begun.map(|k| &start[..k]),
    };
    let mut out = [0u8; LENT_BYTES];
    let used = judge_lib::print(paper, &answer[..m], &mut out);
    program_io::finish(&rt, &out[..used], read.is_none());
}
