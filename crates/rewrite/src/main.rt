// Rewriting as a program: a sheet from sheet.txt in the current folder, and out goes what `rewrite_lib::rewrite` gives. A refused sheet leaves nothing on
// standard output; its text, line and number go to standard error. Shown here: no index is out of range, and the program ends.
// Called with an argument, as bin/rewrite calls it, it tells on descriptor 3 that the whole sheet was written, or that it was refused.
#![tactic(auto)]

use model::Text;
use read_lines::LONGEST;

const STDERR_FILENO: i32 = 2;

fn say_refused(rt: &HostRuntime, line: usize, refused: u8) {
    let mut said = [0u8; 64];
    let used = write_report::write_fault(&mut said, Text::Sheet, line, refused);
    io::write_all(STDERR_FILENO, &said[..used]);
    program_io::tell(rt, false, true);
}

// The text has room for a byte more than it may have, so that a longer one still gets 1.
fn main(rt: HostRuntime) {
    let mut sheet = [0u8; 32769];
    // A missing file counts as empty, as one does whose read fails midway.
    let n = program_io::read_named(&rt, b"sheet.txt", &mut sheet).unwrap_or(0);
    let mut out = [0u8; LONGEST];
    let done = rewrite_lib::rewrite(&sheet[..n], &mut out);
    if done.refused != 0 {
        say_refused(&rt, done.line, done.refused);
        return;
    }
    let used = done.written;
    program_io::finish(&rt, &out[..used], false);
}
