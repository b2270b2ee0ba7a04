// For tests: standard input holds cases until it ends, each a line `case SHEETLEN STARTLEN ANSWERLEN ROOM` (STARTLEN is `-` where there is no start) and the
// bytes of the texts, or `plan SHEETLEN ANSWERLEN ROOM` and two texts of the Aeolus paper. Out goes for each a line `REFUSED ACCEPTED NEXT TEXT LINE WHICH
// START LEN REPORTLEN` (a plan has no NEXT: 0) and the report.
// Promised by `judge_lib` and `aeolus_lib`: what each line says, and the report's bytes.
#![tactic(auto)]

mod flow;
mod header;

ghost use Rattle.std.specs.Prelude.{◌+◌, ◌≤◌, ◌≡◌, length};
ghost use Rattle.io.specs.Counts.{IsPrefixLen};
ghost use Rattle.compare_batch.specs.Within.{Small, Inside};

use flow::{Flow, flush, gather, place_for};
use header::{HEADER, Header, read_header};
use judge_lib::Judged;
use judge_spec::{Paper, Place, Verdict};
use model::{Concerned, Text};
use std::io::Read;

fn write_text(out: &mut [u8], at: usize, text: Text) -> usize {
    match text {
        Text::Sheet => write_items::write_key(out, at, b" sheet "),
        Text::Start => write_items::write_key(out, at, b" start "),
        Text::Answer => write_items::write_key(out, at, b" answer "),
        _ => write_items::write_key(out, at, b" - "),
    }
}

fn write_next(out: &mut [u8], at: usize, n: usize) -> usize {
    let after = write_items::write_number(out, at, n);
    write_items::write_byte(out, after, b' ')
}

// REFUSED ACCEPTED NEXT TEXT LINE
fn write_verdict(out: &mut [u8], at: usize, verdict: Verdict) -> usize {
    let a = write_next(out, at, model::wide(verdict.refused));
    let b = write_next(out, a, verdict.accepted);
    let c = write_items::write_number(out, b, verdict.next);
    let text = verdict.text;
    let d = write_text(out, c, text);
    write_items::write_number(out, d, verdict.line)
}

// WHICH START LEN REPORTLEN
fn write_place(out: &mut [u8], at: usize, place: Place, written: usize) -> usize {
    let which = place.text;
    let a = write_text(out, at, which);
    let b = write_next(out, a, place.start);
    let c = write_next(out, b, place.size);
    let d = write_items::write_number(out, c, written);
    write_items::write_byte(out, d, b'\n')
}

fn judge_answer(paper: Paper<'_>, answer: &[u8], report: &mut [u8]) -> Judged
    ensures { IsPrefixLen result.verdict.written report.new }
{
    judge_lib::judge_and_place(paper, answer, report)
}

fn judge_plan(sheet: &[u8], answer: &[u8], report: &mut [u8]) -> Judged
    ensures { IsPrefixLen result.verdict.written report.new }
{
    let judged = aeolus_lib::judge_and_place(sheet, answer, report);
    let said = judged.verdict;
    let place = judged.place;
    let text = said.text;
    let verdict = Verdict {
        refused: said.refused,
        port: Concerned::NoPort,
        accepted: said.accepted,
        next: 0,
        written: said.written,
        text,
        line: said.line,
    };
    Judged { verdict, place }
}

// The texts of a case stand one after the other, past its header.
fn judge(case: &[u8], header: Header, report: &mut [u8]) -> Judged
    requires small { Small header }
    requires answer_in_bounds { header.size + header.sheet + header.start + header.answer ≤ length case.now }
    ensures { IsPrefixLen result.verdict.written report.new }
{
    let a = header.size;
    let b = a + header.sheet;
    let c = b + header.start;
    let d = c + header.answer;
    if header.plan {
        judge_plan(&case[a..b], &case[c..d], report)
    } else {
        let start = &case[b..c];
        let paper = Paper {
            sheet: &case[a..b],
            start: header.given.then_some(start),
        };
        judge_answer(paper, &case[c..d], report)
    }
}

// The line and the report of one case, with as much room as `report` has.
fn judge_texts(case: &[u8], header: Header, report: &mut [u8], out: &mut [u8], used: usize) -> usize
    requires small { Small header }
    requires answer_in_bounds { header.size + header.sheet + header.start + header.answer ≤ length case.now }
{
    let judged = judge(case, header, report);
    let verdict = judged.verdict;
    let place = judged.place;
    let written = verdict.written;
    let a = write_verdict(out, used, verdict);
    let b = write_place(out, a, place, written);
    write_items::write_key(out, b, &report[..written])
}

fn judge_within(
    case: &[u8],
    header: Header,
    report: &mut [u8],
    out: &mut [u8],
    used: usize,
) -> usize
    requires small { Small header }
    requires answer_in_bounds { header.size + header.sheet + header.start + header.answer ≤ length case.now }
    requires room_in_bounds { header.room ≤ length report.old }
{
    let room = header.room;
    judge_texts(case, header, &mut report[..room], out, used)
}

fn judge_case(
    case: &[u8],
    header: Header,
    report: &mut [u8; 16384],
    out: &mut [u8],
    used: usize,
) -> usize
    requires small { Small header }
    requires answer_in_bounds { header.size + header.sheet + header.start + header.answer ≤ length case.now }
{
    let at = place_for(out, used);
    judge_within(case, header, report, out, at)
}

fn bad_header(out: &mut [u8], flow: Flow) -> Flow
    ensures { (result.at ≡ flow.at) × (result.to ≡ flow.to) }
{
    let used = place_for(out, flow.used);
    Flow {
        at: flow.at,
        to: flow.to,
        used: write_items::write_key(out, used, b"bad header\n"),
        ended: 1,
    }
}

// The case that begins with this header, if its texts are whole.
fn run_texts<R: Read>(
    from: &mut R,
    input: &mut [u8],
    header: Header,
    report: &mut [u8; 16384],
    out: &mut [u8],
    flow: Flow,
) -> Flow
    requires inside { Inside flow input.old }
    requires small { Small header }
    ensures { Inside result input.new }
{
    let need = header.size + header.sheet + header.start + header.answer;
    let whole = gather(from, input, out, flow, need);
    let at = whole.at;
    let to = whole.to;
    if to - at < need {
        return bad_header(out, whole);
    }
    let used = judge_case(&input[at..to], header, report, out, whole.used);
    Flow {
        at: at + need,
        to,
        used,
        ended: 0,
    }
}

fn run_case<R: Read>(
    from: &mut R,
    input: &mut [u8],
    report: &mut [u8; 16384],
    out: &mut [u8],
    flow: Flow,
) -> Flow
    requires { Inside flow input.old }
    ensures { Inside result input.new }
{
    let start = gather(from, input, out, flow, HEADER);
    let at = start.at;
    let to = start.to;
    if at == to {
        return Flow {
            at,
            to,
            used: start.used,
            ended: 1,
        };
    }
    let Some(header) = read_header(&input[at..to]) else {
        return bad_header(out, start);
    };
    run_texts(from, input, header, report, out, start)
}

fn run<R: Read>(from: &mut R, input: &mut [u8], report: &mut [u8; 16384], out: &mut [u8]) {
    let mut flow = Flow {
        at: 0,
        to: 0,
        used: 0,
        ended: 0,
    };
    // A loop that is proved ends, so the cases are counted up to a number that no run reaches.
    for _ in 0..u64::MAX {
        flow = run_case(from, input, report, out, flow);
        if flow.ended != 0 {
            break;
        }
    }
    flush(out, flow.used);
}

fn main(rt: HostRuntime) {
    let mut from = rt.stdin();
    let mut input = [0u8; 131072];
    let mut report = [0u8; 16384];
    let mut out = [0u8; 65536];
    run(&mut from, &mut input, &mut report, &mut out);
}
