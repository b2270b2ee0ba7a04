// Foretelling as a program: a sheet from sheet.txt and a start from start.txt in the current folder, and out goes what `foretell_lib::foretell_print` says.
// Promised there: every byte that is printed. Shown here: no index is out of range, and the program ends.
// Called with an argument, as bin/foretell calls it, it tells on descriptor 3 that all was written.
#![tactic(auto)]

use foretell_lib::FORESEEN_BYTES;
use judge_spec::Paper;

// Each text has room for a byte more than it may have, so that a longer one still gets 1.
fn main(rt: HostRuntime) {
    let mut sheet = [0u8; 32769];
    // A missing file counts as empty.
    let n = program_io::read_as_far(&rt, b"sheet.txt", &mut sheet);
    let mut start = [0u8; 8193];
    let begun = program_io::read_start(&rt, b"start.txt", &mut start);
    let paper = Paper {
        sheet: &sheet[..n],
        start: begun.map(|k| &start[..k]),
    };
    let mut out = [0u8; FORESEEN_BYTES];
    let used = foretell_lib::foretell_print(paper, &mut out);
    program_io::finish(&rt, &out[..used], false);
}
