// A marker's aid: called as `sitting -0 SHEET START TIMES`, as bin/sitting calls it, it takes the answers' names from standard input (program_input) and
// writes for each what sitting_lib promises: `candidate=` and the name, and its block, or `unreadable=1`; at the end `candidates=` and how many there
// were. A fault of the sheet, of the start or of the times is the paper's: it is said, and nothing is written. Each candidate is one write, and the first
// write that fails ends it. On descriptor 3 it tells that all was written, and whether every answer was read.
#![tactic(auto)]

use model::Text;
use program_input::{Listed, TakeName, Texts, Went, print, read_listed, take_names};
use sitting_lib::LONGEST;

fn run_unread(block: &mut [u8], name: &[u8]) -> Went {
    program_input::say_unreadable(b"sitting", name);
    let used = sitting_lib::write_unread(block, name);
    Went {
        unread: true,
        written: print(block, used),
    }
}

fn run_answer(
    rt: &HostRuntime,
    block: &mut [u8],
    texts: Texts<'_>,
    path: &[u8],
    name: &[u8],
) -> Went {
    let mut answer = [0u8; 32769];
    let Ok(size) = program_io::read_named(rt, path, &mut answer) else {
        return run_unread(block, name);
    };
    let used = sitting_lib::write_candidate(block, name, texts.paper, &answer[..size]);
    Went {
        unread: false,
        written: print(block, used),
    }
}

// A name after its mark.
fn run_name(rt: &HostRuntime, block: &mut [u8], texts: Texts<'_>, marked: &[u8]) -> Went {
    let Listed { path, name } = read_listed(marked);
    let Some(path) = path else {
        return run_unread(block, name);
    };
    run_answer(rt, block, texts, path, name)
}

// Each candidate is judged and written when the name comes.
#[derive(Drop)]
struct Sitting<'a> {
    rt: &'a HostRuntime,
    block: &'a mut [u8],
    texts: Texts<'a>,
    candidates: usize,
}

impl TakeName for Sitting<'_> {
    fn take_name(&mut self, name: &[u8]) -> Went {
        self.candidates = self.candidates.wrapping_add(1);
        run_name(self.rt, self.block, self.texts, name)
    }
}

// By itself, so that a paper that is refused needs no stack for the names.
#[inline(never)]
fn sit<'a>(rt: &'a HostRuntime, block: &'a mut [u8], texts: Texts<'a>) {
    let mut sitting = Sitting {
        rt,
        block,
        texts,
        candidates: 0,
    };
    let mut input = rt.stdin();
    let went = take_names(&mut input, &mut sitting);
    let candidates = sitting.candidates;
    let used = write_report::write_count(sitting.block, b"candidates=", candidates);
    if went.written && print(sitting.block, used) {
        program_io::tell_of(went.unread, false);
    }
}

// Where the paper is refused, that is said, and nobody is judged.
fn is_refused(rt: &HostRuntime, text: Text, line: usize, refused: u8) -> bool {
    if refused != 0 {
        program_input::say_fault(rt, b"sitting", text, line, refused);
    }
    refused != 0
}

fn paper_refused(rt: &HostRuntime, texts: Texts<'_>) -> bool {
    if sitting_lib::is_aeolus(texts.paper.sheet) {
        let verdict = sitting_lib::plans::paper_verdict(texts.paper.sheet);
        let text = verdict.text;
        return is_refused(rt, text, verdict.line, verdict.refused);
    }
    let verdict = outcome_lib::paper_verdict(texts.paper, texts.times);
    let text = verdict.text;
    is_refused(rt, text, verdict.line, verdict.refused)
}

fn main(rt: HostRuntime) {
    let mut block = [0u8; LONGEST];
    let mut room = program_input::empty_room();
    let texts = program_input::read_texts(&rt, &mut room);
    if !paper_refused(&rt, texts) {
        sit(&rt, &mut block, texts);
    }
}
