// Timing: a sheet, a start, an answer, a text of times and a lent buffer come to the judge's verdict, a report that ends in its mark, and the mark.
// Promised: on any bytes, every field and byte is what crates/timing_spec/specs says, and the line at fault is that very part of its text.
#![tactic(auto)]

ghost use Rattle.std.specs.Prelude.{◌≡◌, List, ℕ, length, unwrap_or};
ghost use Rattle.std.specs.Option.{is_some};
ghost use Rattle.item_spec.specs.Reader.{bytes};
ghost use Rattle.report_spec.specs.Report.{count_text};
ghost use Rattle.write_items.specs.Written.{Written};
ghost use Rattle.judge_spec.specs.Judged.{after_fault, fault_place, over};
ghost use Rattle.judge_spec.specs.Lent.{lent};
ghost use Rattle.words.specs.Words.{tables_in, program_from, answer_in, state_in};
ghost use Rattle.step_walk.specs.Fits.{PortsFit};
ghost use Rattle.judge_lib.specs.Room.{room_for, Short};
ghost use Rattle.judge_lib.specs.Counts.{Counts};
ghost use Rattle.timing_spec.specs.Timed.{clocked, timed_course, lent_text, number_in, numbered, mark_in_room};
ghost use Rattle.timing_spec.specs.Once.{PromisedAnswer, PromisedPlace};
ghost use Rattle.judge_lib.specs.Came.{came};
ghost use Rattle.timing_lib.specs.Came.{clocked_as, marked_in, in_room_of};
ghost use Rattle.timing_lib.specs.Part.{PromisedPart};
ghost use Rattle.timing_lib.specs.Once.{PromisedPrint};

use judge_lib::pairs::{TextFault, open_paper, outcome_of};
use judge_lib::parts::{part_at, part_of, text_of};
use judge_spec::{LENT_BYTES, Paper, Place, Verdict};
use model::Text;
use timing_clock::TimedWalk;
use timing_mark::unmarked;
use timing_spec::Timed;
use words::state::done;
use words::{AnswerWords, BegunWords, ProgramWords, StateWords, TableWords};

// "a too long text first"; then the walk and its mark
fn clock_pair(
    tables: &TableWords,
    program: &ProgramWords,
    begun: &BegunWords,
    steps: &AnswerWords,
    times: &[u8],
    state: &mut StateWords,
) -> Result<TimedWalk, TextFault>
    ensures { PortsFit (program_from program.now begun.now) → came result (clocked_as state.new)
        ≡ clocked (tables_in tables.now) (program_from program.now begun.now) (state_in state.old) (answer_in steps.now) times.now }
{
    let read = read_times::read_times(times);
    if read.refused != 0 {
        return Err(TextFault {
            text: Text::Times,
            refused: read.refused,
            at: read.place,
        });
    }
    let par = read.times.par;
    let seconds = read.times.seconds;
    Ok(timing_clock::walk_timed(tables, program, begun, steps, state, par, &seconds))
}

// "after the sheet and the answer are read and before any step"
fn course(
    paper: Paper<'_>,
    answer: &[u8],
    times: &[u8],
    state: &mut StateWords,
) -> Result<TimedWalk, TextFault>
    ensures { came result (clocked_as state.new) ≡ timed_course (lent paper.entry) answer.now times.now }
{
    let mut tables = [0u32; 2002];
    let mut program = [0u32; 1282];
    let mut begun = [0u32; 288];
    let opened = open_paper(paper, &mut tables, &mut program, state, &mut begun);
    let mut steps = [0u32; 3073];
    let said = read_answer::fill_answer(answer, &mut steps);
    outcome_of(paper.sheet, opened, answer, said)?;
    clock_pair(&tables, &program, &begun, &steps, times, state)
}

// What a text of a paper, its answer or its times holds: nothing where it isn't lent.
fn lent_text<'a>(paper: Paper<'a>, answer: &'a [u8], times: &'a [u8], text: Text) -> &'a [u8]
    ensures { result.now ≡ lent_text text (lent paper.entry) answer.now times.now }
{
    match text {
        Text::Times => times,
        _ => text_of(paper, answer, text),
    }
}

// A reader's number, in the times the program's own.
fn number_in(text: Text, n: u8) -> u8
    ensures { result ≡ number_in text n }
{
    match text {
        Text::Times => read_times::times_number(n),
        _ => n,
    }
}

// "They act as 2 does, with `text=times`"
fn fault_verdict(paper: Paper<'_>, answer: &[u8], times: &[u8], fault: TextFault) -> Verdict
    ensures { result ≡ (numbered (number_in fault.text fault.refused)
        (after_fault fault.text fault.refused fault.at (lent_text fault.text (lent paper.entry) answer.now times.now))).verdict }
{
    let text = fault.text;
    let s = lent_text(paper, answer, times, text);
    let mut verdict = judge_verdicts::after_fault(text, s, fault.refused, fault.at);
    verdict.refused = number_in(text, fault.refused);
    verdict
}

// "A line `mark=` ends the report."
fn write_marked(t: &mut [u8], w: TimedWalk, state: &StateWords) -> usize
    ensures { Written t.old (marked_in w state.now) t.new 0 result }
{
    let passed = w.passed;
    let port = passed.port;
    let used = write_report::write_report(t, passed.accepted, passed.refused, port, state);
    used + write_report::write_count(&mut t[used..], b"mark=", w.mark)
}

fn mark_length(mark: usize) -> usize
    ensures { result ≡ length (count_text (bytes "mark=") mark) }
{
    let mut scratch = [0u8; 32];
    write_report::write_count(&mut scratch, b"mark=", mark)
}

// Whether the report with its mark has room.
fn has_room(w: TimedWalk, state: &StateWords, room: usize) -> bool
    ensures { result ≡ room_for (length (marked_in w state.now)) room }
{
    let passed = w.passed;
    judge_lib::has_room(passed, state, mark_length(w.mark), room)
}

// The report with its mark, or 6 where it has no room, which is known before its first byte is written.
fn after_walk(w: TimedWalk, state: &StateWords, lent: &mut [u8]) -> Timed
    requires { Short w.passed (marked_in w state.now) }
    ensures verdict { (a : List ℕ) → result.verdict ≡ (in_room_of lent.old w state.now a).verdict }
    ensures mark { result.mark ≡ mark_in_room (length lent.old) (marked_in w state.now) w.mark }
    ensures buffer { (a : List ℕ) → lent.new
        ≡ over (in_room_of lent.old w state.now a).bytes lent.old }
{
    if !has_room(w, state, lent.len()) {
        let verdict = judge_verdicts::no_room();
        return unmarked(verdict);
    }
    let written = write_marked(lent, w, state);
    let passed = w.passed;
    let port = passed.port;
    let refused = passed.refused as u8;
    let accepted = passed.accepted as usize;
    let verdict = judge_verdicts::walk_verdict(
        refused,
        port,
        accepted,
        done(state) as usize,
        written,
    );
    Timed {
        verdict,
        mark: w.mark,
    }
}

// The verdict and the mark, and the report in the lent buffer.
pub fn timed(paper: Paper<'_>, answer: &[u8], times: &[u8], report: &mut [u8]) -> Timed
    ensures { PromisedAnswer (lent paper.entry) answer.now times.now report.old result report.new }
{
    let mut state = [0u32; 930];
    match course(paper, answer, times, &mut state) {
        Ok(walk) => after_walk(walk, &state, report),
        Err(fault) => unmarked(fault_verdict(paper, answer, times, fault)),
    }
}

// The place of the line at fault in a text.
fn fault_place(paper: Paper<'_>, answer: &[u8], times: &[u8], fault: TextFault) -> Place
    ensures { result ≡ fault_place fault.text fault.refused fault.at (lent_text fault.text (lent paper.entry) answer.now times.now) }
{
    let text = fault.text;
    let s = lent_text(paper, answer, times, text);
    judge_verdicts::fault_place(text, s, fault.refused, fault.at)
}

// Which text held the line at fault, where the line starts, and how many bytes it has.
pub fn timed_place(paper: Paper<'_>, answer: &[u8], times: &[u8], room: usize) -> Place
    ensures { PromisedPlace (lent paper.entry) answer.now times.now room result }
{
    let mut state = [0u32; 930];
    match course(paper, answer, times, &mut state) {
        Ok(walk) => {
            let fits = has_room(walk, &state, room);
            let refused = walk.passed.refused as u8;
            let accepted = walk.passed.accepted as usize;
            judge_verdicts::walk_place(refused, accepted, fits, answer)
        }
        Err(fault) => fault_place(paper, answer, times, fault),
    }
}

// The line at fault, as a part of whichever text held it.
pub fn timed_offending<'a>(
    paper: Paper<'a>,
    answer: &'a [u8],
    times: &'a [u8],
    room: usize,
) -> &'a [u8]
    ensures { PromisedPart paper.entry.sheet (is_some paper.entry.start) (unwrap_or paper.entry.start answer.entry) answer.entry times.entry room result }
{
    let place = timed_place(paper, answer, times, room);
    let text = place.text;
    // No place is in a start that isn't lent
    let start = paper.start.unwrap_or(answer);
    match text {
        Text::Times => part_of(times, place.start, place.size),
        _ => part_at(place, paper.sheet, start, answer),
    }
}

// What the `timing` program prints: the report with its mark, or after 1 to 5, 50 and 40 to 42 the three lines.
pub fn timed_print(
    paper: Paper<'_>,
    answer: &[u8],
    times: &[u8],
    out: &mut [u8; LENT_BYTES],
) -> usize
    ensures print { PromisedPrint (lent paper.entry) answer.now times.now out.old result out.new }
    ensures counts { Counts result out.new }
{
    let ended = timed(paper, answer, times, out);
    let verdict = ended.verdict;
    let refused = verdict.refused;
    let text = verdict.text;
    match refused {
        1..=5 => write_report::write_fault(out, text, verdict.line, refused),
        40..=42 => write_report::write_fault(out, text, verdict.line, refused),
        50 => write_report::write_fault(out, text, verdict.line, refused),
        _ => verdict.written,
    }
}
