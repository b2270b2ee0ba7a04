// A paper's faults as a program: a sheet from sheet.txt, a start from start.txt and times from times.txt in the current folder, the last two where they are there,
// and out goes what `faults_lib::faults_print` says.
// Promised there: every byte that is printed. Shown here: no index is out of range, and the program ends.
// Called with an argument, as bin/check calls it, it tells on descriptor 3 that all was written.
#![tactic(auto)]

use faults_lib::FAULTS_BYTES;
use judge_spec::Paper;

// Each text has room for a byte more than it may have, so that a longer one still gets 1.
fn main(rt: HostRuntime) {
    let mut sheet = [0u8; 32769];
    // A missing file counts as empty.
    let n = program_io::read_as_far(&rt, b"sheet.txt", &mut sheet);
    let mut start = [0u8; 8193];
    let begun = program_io::read_start(&rt, b"start.txt", &mut start);
    let mut times = [0u8; 32769];
    let timed = program_io::read_start(&rt, b"times.txt", &mut times);
    let paper = Paper {
        sheet: &sheet[..n],
        start: begun.map(|k| &start[..k]),
    };
    let mut out = [0u8; FAULTS_BYTES];
    let used = faults_lib::faults_print(paper, timed.map(|m| &times[..m]), &mut out);
    program_io::finish(&rt, &out[..used], false);
}
