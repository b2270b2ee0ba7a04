// The start where an answer ends, as a program: the sheet from sheet.txt and the start, where there is one, from start.txt in the current folder, the answer
// from standard input, and out goes what `judge_lib::next::next_start` writes. Promised there: every byte that is printed. Where a text or a step is refused
// nothing is printed, and what is refused goes to standard error. Shown here: no index is out of range, and the program ends.
// Called with an argument, as bin/start-from calls it, it tells on descriptor 3 that the whole start was written, or that something was refused or not read.
#![tactic(auto)]

use judge_lib::next::Next;
use judge_spec::{LENT_BYTES, Paper};
use model::Text;
use program_io::show_count;

const STDERR_FILENO: i32 = 2;

// After a refused step: how many were allowed before it, and the number.
fn say_step(accepted: usize, refused: u8) {
    show_count(STDERR_FILENO, b"accepted=", accepted);
    show_count(STDERR_FILENO, b"refused=", refused as usize);
}

fn say_refused(next: Next) {
    let text = next.text;
    match text {
        Text::Sheet => program_io::say_fault(b"text=sheet\n", next.line, next.refused),
        Text::Start => program_io::say_fault(b"text=start\n", next.line, next.refused),
        Text::Answer => program_io::say_fault(b"text=answer\n", next.line, next.refused),
        _ => say_step(next.accepted, next.refused),
    }
}

// Each text has room for a byte more than it may have, so that a longer one still gets 1.
fn main(rt: HostRuntime) {
    let mut sheet = [0u8; 32769];
    // A missing file counts as empty.
    let n = program_io::read_as_far(&rt, b"sheet.txt", &mut sheet);
    let mut start = [0u8; 8193];
    let begun = program_io::read_start(&rt, b"start.txt", &mut start);
    let mut answer = [0u8; 32769];
    let mut input = rt.stdin();
    let read = program_io::read_answer(&mut input, &mut answer, b"start-from: standard input");
    let m = read.unwrap_or(0);
    let paper = Paper {
        sheet: &sheet[..n],
        start: begun.map(|k| &start[..k]),
    };
    let mut out = [0u8; LENT_BYTES];
    let next = judge_lib::next::next_start(paper, &answer[..m], &mut out);
    if next.refused != 0 {
        say_refused(next);
        program_io::tell(&rt, read.is_none(), true);
        return;
    }
    let used = next.used;
    program_io::finish(&rt, &out[..used], read.is_none());
}
