// The markers' page of a paper: called as `page -0 SHEET START TIMES TITLE SUM SUM SUM VERSION`, as bin/page calls it, with the sums of the three texts, it
// takes the answers' names from standard input (program_input) twice, with an empty name between: once to count the candidates by outcome, and once to write
// each of them, under the last part of its name. A fault of the sheet, of the start or of the times is the paper's: it is said, and nothing is written. Each
// candidate is one write, and the first write that fails ends it. On descriptor 3 it tells that all was written, and whether every answer was read.
#![tactic(auto)]

use page_found::found_of;
use page_lib::tops;
use page_spec::Found;
use program_input::{
    Listed, TakeName, Texts, Went, argument, base_from, print, read_listed, take_names,
};

// `longest` in crates/page_spec/specs/Room.antt: no candidate has more, and neither has the page's top.
const LONGEST: usize = 294912;

// Whether the candidates are counted or written, and how many were, in all and in each group.
// The flag chooses what is done with the counts, and hides none of them.
#[derive(Drop)]
struct Sat {
    counting: bool,
    candidates: usize,
    counts: [usize; 41],
}

fn count(sat: &mut Sat, group: usize) {
    sat.candidates = sat.candidates.wrapping_add(1);
    if group < tops::GROUPS {
        sat.counts[group] = sat.counts[group].wrapping_add(1);
    }
}

fn run_unreadable(block: &mut [u8], sat: &mut Sat, path: &[u8]) -> Went {
    if sat.counting {
        program_input::say_unreadable(b"page", path);
        count(sat, 40);
        return Went {
            unread: true,
            written: true,
        };
    }
    let from = base_from(path);
    let used = page_lib::write_unreadable(block, sat.candidates, &path[from..]);
    sat.candidates = sat.candidates.wrapping_add(1);
    Went {
        unread: true,
        written: print(block, used),
    }
}

fn write_answer(
    block: &mut [u8],
    sat: &mut Sat,
    found: Found,
    texts: Texts<'_>,
    answer: &[u8],
    path: &[u8],
) -> Went {
    let mut report = [0u8; 8192];
    let n = judge_lib::print(texts.paper, answer, &mut report);
    let from = base_from(path);
    let used = page_lib::write_candidate(
        block,
        sat.candidates,
        &path[from..],
        found,
        texts.paper.sheet,
        answer,
        &report[..n],
    );
    sat.candidates = sat.candidates.wrapping_add(1);
    Went {
        unread: false,
        written: print(block, used),
    }
}

fn run_answer(
    rt: &HostRuntime,
    block: &mut [u8],
    sat: &mut Sat,
    texts: Texts<'_>,
    path: &[u8],
    name: &[u8],
) -> Went {
    let mut answer = [0u8; 32769];
    let Ok(size) = program_io::read_named(rt, path, &mut answer) else {
        return run_unreadable(block, sat, name);
    };
    let row = register_lib::row_of(texts.paper, texts.times, &answer[..size]);
    let found = found_of(row, &answer[..size]);
    if sat.counting {
        count(sat, found.group);
        return Went {
            unread: false,
            written: true,
        };
    }
    write_answer(block, sat, found, texts, &answer[..size], name)
}

// What stands before the candidates, once they are counted.
fn begin(rt: &HostRuntime, block: &mut [u8], sat: &mut Sat) -> Went {
    let mut title = [0u8; 4096];
    let mut sheet = [0u8; 4096];
    let mut start = [0u8; 4096];
    let mut times = [0u8; 4096];
    let mut judge = [0u8; 4096];
    let a = argument(rt, 5, &mut title);
    let b = argument(rt, 6, &mut sheet);
    let c = argument(rt, 7, &mut start);
    let d = argument(rt, 8, &mut times);
    let e = argument(rt, 9, &mut judge);
    let used = tops::write_top(
        block,
        &title[..a],
        &sheet[..b],
        &start[..c],
        &times[..d],
        &judge[..e],
    );
    let written = print(block, used);
    let n = tops::write_counts(block, sat.candidates, &sat.counts);
    sat.counting = false;
    sat.candidates = 0;
    Went {
        unread: false,
        written: written & print(block, n),
    }
}

// A name after its mark, or the end of the first time.
fn run_name(
    rt: &HostRuntime,
    block: &mut [u8],
    sat: &mut Sat,
    texts: Texts<'_>,
    marked: &[u8],
) -> Went {
    if marked.is_empty() {
        return begin(rt, block, sat);
    }
    let Listed { path, name } = read_listed(marked);
    let Some(path) = path else {
        return run_unreadable(block, sat, name);
    };
    run_answer(rt, block, sat, texts, path, name)
}

// Each candidate is counted, and then written, when the name comes.
#[derive(Drop)]
struct Candidates<'a> {
    rt: &'a HostRuntime,
    block: &'a mut [u8],
    sat: Sat,
    texts: Texts<'a>,
}

impl TakeName for Candidates<'_> {
    fn take_name(&mut self, name: &[u8]) -> Went {
        run_name(self.rt, self.block, &mut self.sat, self.texts, name)
    }
}

fn run<'a>(rt: &'a HostRuntime, block: &'a mut [u8], texts: Texts<'a>) {
    let verdict = outcome_lib::paper_verdict(texts.paper, texts.times);
    if verdict.refused != 0 {
        let text = verdict.text;
        program_input::say_fault(rt, b"page", text, verdict.line, verdict.refused);
        return;
    }
    let sat = Sat {
        counting: true,
        candidates: 0,
        counts: [0; 41],
    };
    let mut candidates = Candidates {
        rt,
        block,
        sat,
        texts,
    };
    let mut input = rt.stdin();
    let went = take_names(&mut input, &mut candidates);
    let counting = candidates.sat.counting;
    if counting || !went.written {
        return;
    }
    let written = candidates.sat.candidates;
    let used = tops::write_foot(candidates.block, written);
    if print(candidates.block, used) {
        program_io::tell_of(went.unread, false);
    }
}

fn main(rt: HostRuntime) {
    let mut block = [0u8; LONGEST];
    let mut room = program_input::empty_room();
    let texts = program_input::read_texts(&rt, &mut room);
    run(&rt, &mut block, texts);
}
