// Runs each paper that an argument names, NAME.sheet and, where there is one, NAME.start: its name, what `model_walk` answers, how many bytes of the lent
// buffer are as they were found, and the text; then what it answers in a buffer of just that many bytes and in one of a byte less.
// Promised by `model_walk_lib`: all of it but the name. A paper is a line of cases.py, and make.py writes the rest.
#![tactic(auto)]

use judge_spec::Paper;
use model::Text;
use model_walk_lib::Modelled;
use model_walk_spec::Ending;
use program_io::show_count;

const STDOUT_FILENO: i32 = 1;

// What every byte of the buffer holds before, and no answer has.
const FOUND: u8 = b'#';

// No model walk has more bytes.
const ROOM: usize = 17428;

// How many bytes are as they were found.
fn as_found(buffer: &[u8]) -> usize {
    let mut n: usize = 0;
    for b in buffer {
        n += usize::from(*b == FOUND);
    }
    n
}

fn print_text(text: Text) {
    match text {
        Text::Neither => {
            io::write_all(STDOUT_FILENO, b"text=-\n");
        }
        Text::Sheet => {
            io::write_all(STDOUT_FILENO, b"text=sheet\n");
        }
        Text::Start => {
            io::write_all(STDOUT_FILENO, b"text=start\n");
        }
        _ => {
            io::write_all(STDOUT_FILENO, b"text=?\n");
        }
    }
}

fn print_ending(ending: Ending) {
    match ending {
        Ending::NoEnding => {
            io::write_all(STDOUT_FILENO, b"walk=-\n");
        }
        Ending::Done => {
            io::write_all(STDOUT_FILENO, b"walk=done\n");
        }
        Ending::Cut => {
            io::write_all(STDOUT_FILENO, b"walk=cut\n");
        }
        Ending::Stuck => {
            io::write_all(STDOUT_FILENO, b"walk=stuck\n");
        }
    }
}

fn print_answered(done: Modelled, found: usize) {
    let text = done.text;
    let ending = done.ending;
    show_count(STDOUT_FILENO, b"refused=", model::wide(done.refused));
    print_text(text);
    show_count(STDOUT_FILENO, b"line=", done.line);
    print_ending(ending);
    show_count(STDOUT_FILENO, b"steps=", done.steps as usize);
    show_count(STDOUT_FILENO, b"written=", done.written);
    show_count(STDOUT_FILENO, b"found=", found);
}

// The number in a buffer of n bytes, and how many bytes stay as found.
fn print_room(paper: Paper<'_>, n: usize) {
    let mut out = [FOUND; ROOM];
    let size = n.min(ROOM);
    let done = model_walk_lib::model_walk(paper, &mut out[..size]);
    show_count(STDOUT_FILENO, b"room=", size);
    print_answered(done, as_found(&out));
}

fn run_paper(paper: Paper<'_>) {
    let mut out = [FOUND; ROOM];
    let done = model_walk_lib::model_walk(paper, &mut out);
    let found = as_found(&out);
    print_answered(done, found);
    let n = done.written;
    io::write_all(STDOUT_FILENO, &out[..n]);
    if 0 < n {
        print_room(paper, n);
        print_room(paper, n - 1);
    }
}

fn run_case(rt: &HostRuntime, i: usize) {
    let mut name = [0u8; 64];
    let k = program_io::read_argument(rt, i, &mut name);
    let mut sheet = [0u8; 32769];
    let n = sitting_shown::read_named(rt, &name[..k], b".sheet", &mut sheet);
    let mut path = [0u8; 80];
    let l = sitting_shown::path_of(&mut path, &name[..k], b".start");
    let mut start = [0u8; 8193];
    let begun = program_io::read_start(rt, &path[..l], &mut start);
    io::write_all(STDOUT_FILENO, b"case=");
    io::write_all(STDOUT_FILENO, &name[..k]);
    io::write_all(STDOUT_FILENO, b"\n");
    let paper = Paper {
        sheet: &sheet[..n],
        start: begun.map(|b| &start[..b]),
    };
    run_paper(paper);
}

fn main(rt: HostRuntime) {
    let count = program_io::argument_count(&rt);
    for i in 1..count {
        run_case(&rt, i);
    }
}
