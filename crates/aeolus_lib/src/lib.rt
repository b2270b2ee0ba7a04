// The judge of the Aeolus paper: two texts and a lent buffer come to a verdict, a report, what the program prints, and the offending line.
// Promised: on any bytes, every field and byte is what crates/aeolus_judge_spec/specs says, and the offending line is that very part of its text.
#![tactic(auto)]

ghost use Rattle.std.specs.Prelude.{◌≡◌, List, ℕ, ◌≤◌, ◌<◌, leb, length};
ghost use Rattle.judge_spec.specs.Judged.{text_of, step_place, fault_place, over};
ghost use Rattle.judge_lib.specs.Came.{came};
ghost use Rattle.judge_lib.specs.Counts.{Counts};
ghost use Rattle.judge_lib.specs.Part.{PartAt};
ghost use Rattle.aeolus_model.specs.Model.{Configuration};
ghost use Rattle.aeolus_model.specs.Words.{universe_in, plan_in, configuration_in};
ghost use Rattle.aeolus_judge_spec.specs.Report.{report};
ghost use Rattle.aeolus_judge_spec.specs.Course.{both, course};
ghost use Rattle.aeolus_judge_spec.specs.Judged.{at_step, after_fault, no_room, after_run, in_room, judged, buffer, printed};
ghost use Rattle.aeolus_judge_spec.specs.Once.{Promised};
ghost use Rattle.aeolus_write_report.specs.Ran.{ran};
ghost use Rattle.aeolus_lib.specs.Comes.{Comes};

use aeolus_judge_spec::Verdict;
use aeolus_model::{Deployed, Plan, Universe, clear_deployed, types};
use aeolus_step::Passed;
use aeolus_write_report::write_report;
use item_spec::BUFFER_SHORT;
use judge_lib::pairs::{TextFault, alone, outcome_of};
use judge_lib::parts::{fault_or_report, part_at, text_of};
use judge_spec::{LENT_BYTES, Paper, Place};
use model::{Text, smaller};

// No report that two texts come to has more bytes.
const LARGEST: usize = 1811;

// ---- the two texts

// What both texts say, in lent words.
fn read_both(
    sheet: &[u8],
    answer: &[u8],
    universe: &mut Universe,
    plan: &mut Plan,
) -> Result<(), TextFault>
    ensures { came result (λ _. (universe_in universe.new, plan_in plan.new)) ≡ both sheet.now answer.now }
{
    let said = aeolus_read_sheet::fill_universe(sheet, universe);
    let n = types(universe);
    let given = aeolus_read_plan::fill_plan(answer, n, plan);
    outcome_of(sheet, alone(said), answer, given)
}

// The run, where both texts are read.
fn run_texts(
    sheet: &[u8],
    answer: &[u8],
    universe: &mut Universe,
    deployed: &mut Deployed,
) -> Result<Passed, TextFault>
    ensures { came result (λ p. (universe_in universe.new, ran p (configuration_in deployed.new)))
        ≡ course sheet.now answer.now }
{
    let mut plan = [0u32; 4097];
    read_both(sheet, answer, universe, &mut plan)?;
    clear_deployed(deployed);
    Ok(aeolus_step::run(universe, &plan, deployed))
}

// ---- what they come to

// "After 1 to 6 the counts in the result are 0".
fn fault_verdict(x: Text, s: &[u8], n: u8, at: usize) -> Verdict
    ensures { result ≡ (after_fault x n at s.now).verdict }
{
    let same = judge_verdicts::after_fault(x, s, n, at);
    Verdict {
        refused: n,
        accepted: 0,
        written: 0,
        text: x,
        line: same.line,
    }
}

fn no_room() -> Verdict
    ensures { result ≡ no_room.verdict }
{
    Verdict {
        refused: BUFFER_SHORT,
        accepted: 0,
        written: 0,
        text: Text::Neither,
        line: 0,
    }
}

fn run_verdict(passed: Passed, written: usize) -> Verdict
    requires { passed.refused < 100 }
    ensures { (c : Configuration) (x a : List ℕ) → written ≡ length x → result ≡ (after_run (ran passed c) x a).verdict }
{
    Verdict {
        refused: passed.refused as u8,
        accepted: passed.accepted as usize,
        written,
        text: Text::Neither,
        line: 0,
    }
}

// No one action is at fault after 70.
fn at_step(refused: u32) -> u8
    requires { refused < 100 }
    ensures { result ≡ at_step refused }
{
    let after_all = refused == 70;
    if after_all {
        return 0;
    }
    refused as u8
}

// What was run is there whether or not the report fits, so `fits` is no Option of it.
fn run_place(passed: Passed, fits: bool, answer: &[u8]) -> Place
    requires { passed.refused < 100 }
    ensures { (c : Configuration) (x : List ℕ) (room : ℕ)
        → fits ≡ leb (length x) room → result ≡ (in_room room (ran passed c) x answer.now).place }
{
    if !fits {
        return Place {
            text: Text::Answer,
            start: 0,
            size: 0,
        };
    }
    judge_verdicts::step_place(at_step(passed.refused), passed.accepted as usize, answer)
}

fn report_length(universe: &Universe, deployed: &Deployed, passed: Passed) -> usize
    requires { length (report (universe_in universe.now) (ran passed (configuration_in deployed.now))) ≤ 1811 }
    ensures { result ≡ length (report (universe_in universe.now) (ran passed (configuration_in deployed.now))) }
{
    let mut scratch = [0u8; 1811];
    write_report(&mut scratch, universe, deployed, passed)
}

// Whether the report has room. Where every report has, its length isn't looked for: that would write it once more.
fn has_room(universe: &Universe, deployed: &Deployed, passed: Passed, room: usize) -> bool
    requires { length (report (universe_in universe.now) (ran passed (configuration_in deployed.now))) ≤ 1811 }
    ensures { result ≡ leb (length (report (universe_in universe.now) (ran passed (configuration_in deployed.now)))) room }
{
    if LARGEST <= room {
        return true;
    }
    report_length(universe, deployed, passed) <= room
}

// A verdict, and the place of the offending line.
#[derive(Drop)]
pub struct Judged {
    pub verdict: Verdict,
    pub place: Place,
}

fn judge_fault(sheet: &[u8], answer: &[u8], fault: TextFault) -> Judged
    ensures verdict { result.verdict ≡ (after_fault fault.text fault.refused fault.at (text_of fault.text sheet.now answer.now)).verdict }
    ensures place { result.place ≡ fault_place fault.text fault.refused fault.at (text_of fault.text sheet.now answer.now) }
{
    let text = fault.text;
    let s = text_of(Paper { sheet, start: None }, answer, text);
    let verdict = fault_verdict(text, s, fault.refused, fault.at);
    let place = judge_verdicts::fault_place(text, s, fault.refused, fault.at);
    Judged { verdict, place }
}

// The report, or 6 where it has no room, which is known before its first byte is written.
fn judge_run(
    universe: &Universe,
    deployed: &Deployed,
    passed: Passed,
    answer: &[u8],
    lent: &mut [u8],
) -> Judged
    requires { (length (report (universe_in universe.now) (ran passed (configuration_in deployed.now))) ≤ 1811) × (passed.refused < 100) }
    ensures { Comes result lent.old lent.new
        (in_room (length lent.old) (ran passed (configuration_in deployed.now))
        (report (universe_in universe.now) (ran passed (configuration_in deployed.now))) answer.now) }
{
    let fits = has_room(universe, deployed, passed, lent.len());
    let place = run_place(passed, fits, answer);
    if !fits {
        let verdict = no_room();
        return Judged { verdict, place };
    }
    let written = write_report(lent, universe, deployed, passed);
    let verdict = run_verdict(passed, written);
    Judged { verdict, place }
}

// The verdict, the report in the lent buffer, and the place of the offending line.
pub fn judge_and_place(sheet: &[u8], answer: &[u8], report: &mut [u8]) -> Judged
    ensures { Promised sheet.now answer.now report.old result.verdict report.new result.place }
{
    let mut universe = [0u32; 12881];
    let mut deployed = [0u32; 577];
    match run_texts(sheet, answer, &mut universe, &mut deployed) {
        Ok(passed) => judge_run(&universe, &deployed, passed, answer, report),
        Err(fault) => judge_fault(sheet, answer, fault),
    }
}

// The verdict, and the report in the lent buffer.
pub fn judge(sheet: &[u8], answer: &[u8], report: &mut [u8]) -> Verdict
    ensures verdict { result ≡ (judged sheet.now answer.now (length report.old)).verdict }
    ensures buffer { report.new ≡ buffer sheet.now answer.now report.old }
{
    judge_and_place(sheet, answer, report).verdict
}

// Which text held the offending line, where the line starts, and how many bytes it has. No report needs more room than 8,192 bytes.
pub fn place(sheet: &[u8], answer: &[u8], room: usize) -> Place
    ensures { result ≡ (judged sheet.now answer.now room).place }
{
    let mut scratch = [0u8; LENT_BYTES];
    let n = smaller(room, LENT_BYTES);
    judge_and_place(sheet, answer, &mut scratch[..n]).place
}

// The offending line, as a part of whichever text held it; no start is at fault (Places), so it doesn't matter what stands for one.
pub fn offending<'a>(sheet: &'a [u8], answer: &'a [u8], room: usize) -> &'a [u8]
    ensures { PartAt (judged sheet.now answer.now room).place sheet.entry sheet.entry answer.entry result }
{
    part_at(place(sheet, answer, room), sheet, sheet, answer)
}

// What the `aeolus` program prints: the report, or after 1 to 5 the three lines.
pub fn print(sheet: &[u8], answer: &[u8], out: &mut [u8; LENT_BYTES]) -> usize
    ensures used { result ≡ length (printed sheet.now answer.now) }
    ensures out { out.new ≡ over (printed sheet.now answer.now) out.old }
    ensures counts { Counts result out.new }
{
    let verdict = judge(sheet, answer, out);
    let text = verdict.text;
    fault_or_report(out, text, verdict.line, verdict.refused, verdict.written)
}
