// The judge: a sheet, a start, an answer and a lent buffer come to a verdict, a report, what the program prints, and the line at fault.
// Promised: on any bytes, every field and byte is what crates/judge_spec/specs says, and the line at fault is that very part of its text.
#![tactic(auto)]

pub mod next;
pub mod pairs;
pub mod papers;
pub mod parts;

ghost use Rattle.std.specs.Prelude.{◌≡◌, ◌+◌, length, unwrap_or};
ghost use Rattle.judge_spec.specs.Judged.{judged, over};
ghost use Rattle.judge_spec.specs.Lent.{lent};
ghost use Rattle.judge_spec.specs.Once.{Judges, Places, Promised, Prints};
ghost use Rattle.judge_lib.specs.Came.{report_in, in_room_of, fault_judged};
ghost use Rattle.judge_lib.specs.Room.{room_for, Short};
ghost use Rattle.judge_lib.specs.Counts.{Counts};
ghost use Rattle.judge_lib.specs.Part.{PartAt};

use judge_spec::{LENT_BYTES, Paper, Place, Verdict};
use judge_verdicts::{after_fault, fault_place, no_room, walk_place, walk_verdict};
use model::smaller;
use pairs::{TextFault, walk_texts};
use parts::{fault_or_report, part_at, text_of};
use step_walk::Passed;
use words::StateWords;
use words::state::done;

// Whether the report of a walk has room, with so many bytes after it. Where every report that texts come to has, its length isn't looked for:
// that would write it once more.
pub fn has_room(w: Passed, state: &StateWords, after: usize, room: usize) -> bool
    ensures { result ≡ room_for (length (report_in w state.now) + after) room }
{
    if LENT_BYTES <= room {
        return true;
    }
    if room < after {
        return false;
    }
    let port = w.port;
    let mut scratch = [0u8; LENT_BYTES];
    write_report::write_report(&mut scratch, w.accepted, w.refused, port, state) <= room - after
}

// A verdict, and the place of the line at fault.
#[derive(Drop)]
pub struct Judged {
    pub verdict: Verdict,
    pub place: Place,
}

fn judge_fault(paper: Paper<'_>, answer: &[u8], fault: TextFault) -> Judged
    ensures verdict { result.verdict ≡ (fault_judged (lent paper.entry) answer.now fault).verdict }
    ensures place { result.place ≡ (fault_judged (lent paper.entry) answer.now fault).place }
{
    let text = fault.text;
    let s = text_of(paper, answer, text);
    let verdict = after_fault(text, s, fault.refused, fault.at);
    let place = fault_place(text, s, fault.refused, fault.at);
    Judged { verdict, place }
}

// The report, or 6 where it has no room, which is known before its first byte is written.
fn judge_walk(w: Passed, state: &StateWords, answer: &[u8], lent: &mut [u8]) -> Judged
    requires { Short w (report_in w state.now) }
    ensures verdict { result.verdict ≡ (in_room_of lent.old w state.now answer.now).verdict }
    ensures place { result.place ≡ (in_room_of lent.old w state.now answer.now).place }
    ensures buffer { lent.new ≡ over (in_room_of lent.old w state.now answer.now).bytes lent.old }
{
    let fits = has_room(w, state, 0, lent.len());
    let refused = w.refused as u8;
    let accepted = w.accepted as usize;
    let place = walk_place(refused, accepted, fits, answer);
    if !fits {
        let verdict = no_room();
        return Judged { verdict, place };
    }
    let port = w.port;
    let written = write_report::write_report(lent, w.accepted, w.refused, port, state);
    let verdict = walk_verdict(refused, port, accepted, done(state) as usize, written);
    Judged { verdict, place }
}

// The verdict, the report in the lent buffer, and the place of the line at fault.
pub fn judge_and_place(paper: Paper<'_>, answer: &[u8], report: &mut [u8]) -> Judged
    ensures { Promised (lent paper.entry) answer.now report.old result.verdict report.new result.place }
{
    let mut state = [0u32; 930];
    match walk_texts(paper, answer, &mut state) {
        Ok(passed) => judge_walk(passed, &state, answer, report),
        Err(fault) => judge_fault(paper, answer, fault),
    }
}

// The verdict, and the report in the lent buffer.
pub fn judge(paper: Paper<'_>, answer: &[u8], report: &mut [u8]) -> Verdict
    ensures { Judges (lent paper.entry) answer.now report.old result report.new }
{
    judge_and_place(paper, answer, report).verdict
}

// Which text held the line at fault, where the line starts, and how many bytes it has. No report needs more room than 8,192 bytes.
pub fn place(paper: Paper<'_>, answer: &[u8], room: usize) -> Place
    ensures { Places (lent paper.entry) answer.now room result }
{
    let mut scratch = [0u8; LENT_BYTES];
    let n = smaller(room, LENT_BYTES);
    judge_and_place(paper, answer, &mut scratch[..n]).place
}

// The line at fault, as a part of whichever text held it.
pub fn offending<'a>(paper: Paper<'a>, answer: &'a [u8], room: usize) -> &'a [u8]
    ensures { PartAt (judged (lent paper.entry) answer.now room).place paper.entry.sheet (unwrap_or paper.entry.start answer.entry) answer.entry result }
{
    // No place is in a start that isn't lent
    let start = paper.start.unwrap_or(answer);
    part_at(place(paper, answer, room), paper.sheet, start, answer)
}

// What the `judge` program prints: the report, or after 1 to 5 the three lines.
pub fn print(paper: Paper<'_>, answer: &[u8], out: &mut [u8; LENT_BYTES]) -> usize
    ensures prints { Prints (lent paper.entry) answer.now out.old result out.new }
    ensures counts { Counts result out.new }
{
    let verdict = judge(paper, answer, out);
    let text = verdict.text;
    fault_or_report(out, text, verdict.line, verdict.refused, verdict.written)
}
