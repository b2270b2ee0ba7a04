// The model walk as a program: a sheet from sheet.txt and a start from start.txt in the current folder, and out goes the answer text that
// `model_walk_lib::model_walk` gives, so that it can be piped into the judge. How the walk ends goes to standard error, and so do the three lines of a text
// that is refused.
// Shown here: no index is out of range, and the program ends. Called with an argument, as bin/model-walk calls it, it tells on descriptor 3 that all was
// written, or that a text was refused.
#![tactic(auto)]

use judge_spec::Paper;
use model::Text;
use model_walk_spec::Ending;

const STDOUT_FILENO: i32 = 1;

const STDERR_FILENO: i32 = 2;

fn say_refused(rt: &HostRuntime, text: Text, line: usize, refused: u8) {
    let mut said = [0u8; 64];
    let used = write_report::write_fault(&mut said, text, line, refused);
    io::write_all(STDERR_FILENO, &said[..used]);
    program_io::tell(rt, false, true);
}

fn say_ending(ending: Ending) {
    match ending {
        Ending::NoEnding => {}
        Ending::Done => {
            io::write_all(STDERR_FILENO, b"walk=done\n");
        }
        Ending::Cut => {
            io::write_all(STDERR_FILENO, b"walk=cut\n");
        }
        Ending::Stuck => {
            io::write_all(STDERR_FILENO, b"walk=stuck\n");
        }
    }
}

// Each text has room for a byte more than it may have, so that a longer one still gets 1.
fn main(rt: HostRuntime) {
    let mut sheet = [0u8; 32769];
    // A missing file counts as empty.
    let n = program_io::read_as_far(&rt, b"sheet.txt", &mut sheet);
    let mut start = [0u8; 8193];
    let begun = program_io::read_start(&rt, b"start.txt", &mut start);
    let paper = Paper {
        sheet: &sheet[..n],
        start: begun.map(|k| &start[..k]),
    };
    let mut out = [0u8; 17428];
    let done = model_walk_lib::model_walk(paper, &mut out);
    let text = done.text;
    if done.refused != 0 {
        say_refused(&rt, text, done.line, done.refused);
        return;
    }
    let used = done.written;
    let ending = done.ending;
    if io::write_all(STDOUT_FILENO, &out[..used]) {
        say_ending(ending);
        program_io::tell(&rt, false, false);
    }
}
