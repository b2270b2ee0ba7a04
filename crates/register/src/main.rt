// The register of a paper: called as `register -0 SHEET START TIMES`, as bin/register calls it, it takes the answers' names from standard input (program_input)
// and writes what the columns are, then a row for each answer, under the last part of its name; `unreadable` for one that isn't a plain file or can't be read.
// A fault of the sheet, of the start or of the times is the paper's: it is said, and nothing is written. Each row is one write, and the first write that fails
// ends it. On descriptor 3 it tells that all was written, and whether every answer was read.
#![tactic(auto)]

use program_input::{Listed, TakeName, Texts, Went, base_from, print, read_listed, take_names};
use register_lib::{row_of, write_row};

// A name of 4,096 bytes, each shown as four at most, and the cells after it.
const LONGEST: usize = 16600;

fn run_unreadable(block: &mut [u8], path: &[u8]) -> Went {
    program_input::say_unreadable(b"register", path);
    let from = base_from(path);
    let used = register_lib::write_unreadable(block, 0, &path[from..]);
    Went {
        unread: true,
        written: print(block, used),
    }
}

fn run_answer(
    rt: &HostRuntime,
    block: &mut [u8],
    texts: Texts<'_>,
    path: &[u8],
    name: &[u8],
) -> Went {
    let mut answer = [0u8; 32769];
    let Ok(size) = program_io::read_named(rt, path, &mut answer) else {
        return run_unreadable(block, name);
    };
    let row = row_of(texts.paper, texts.times, &answer[..size]);
    let from = base_from(name);
    let used = write_row(block, 0, &name[from..], row);
    Went {
        unread: false,
        written: print(block, used),
    }
}

// A name after its mark.
fn run_name(rt: &HostRuntime, block: &mut [u8], texts: Texts<'_>, marked: &[u8]) -> Went {
    let Listed { path, name } = read_listed(marked);
    let Some(path) = path else {
        return run_unreadable(block, name);
    };
    run_answer(rt, block, texts, path, name)
}

// Each candidate's row is written when the name comes.
#[derive(Drop)]
struct Rows<'a> {
    rt: &'a HostRuntime,
    block: &'a mut [u8],
    texts: Texts<'a>,
}

impl TakeName for Rows<'_> {
    fn take_name(&mut self, name: &[u8]) -> Went {
        run_name(self.rt, self.block, self.texts, name)
    }
}

fn run<'a>(rt: &'a HostRuntime, block: &'a mut [u8], texts: Texts<'a>) {
    let verdict = outcome_lib::paper_verdict(texts.paper, texts.times);
    if verdict.refused != 0 {
        let text = verdict.text;
        program_input::say_fault(rt, b"register", text, verdict.line, verdict.refused);
        return;
    }
    let used = register_lib::write_head(block, 0);
    if !print(block, used) {
        return;
    }
    let mut input = rt.stdin();
    let went = take_names(&mut input, &mut Rows { rt, block, texts });
    if went.written {
        program_io::tell_of(went.unread, false);
    }
}

fn main(rt: HostRuntime) {
    let mut block = [0u8; LONGEST];
    let mut room = program_input::empty_room();
    let texts = program_input::read_texts(&rt, &mut room);
    run(&rt, &mut block, texts);
}
