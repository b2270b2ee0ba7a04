// The outcome of an answer on a paper, and the fault of a paper alone.
// Promised: on any bytes, `outcome_of` and the length of the sheet's program; the verdict of the judge, or of timing where there are times, beside an answer of
// no steps.
#![tactic(auto)]

ghost use Rattle.std.specs.Prelude.{◌≡◌};
ghost use Rattle.std.specs.Option.{is_some};
ghost use Rattle.judge_spec.specs.Lent.{lent, text_lent};
ghost use Rattle.write_items.specs.Written.{Written};
ghost use Rattle.outcome_spec.specs.Outcome.{said_program, fault_in, after_steps, outcome_of, outcome_text};
ghost use Rattle.outcome_spec.specs.Paper.{paper_verdict};

use judge_lib::pairs::{open_paper, outcome_of, walk_words};
use judge_spec::{LENT_BYTES, Paper, Verdict};
use model::Text;
use outcome_spec::Outcome;
use step_done::all_done;
use words::program::instructions;
use write_items::write_key;

// An outcome, and how many instructions the sheet's program has.
#[derive(Clone, Copy)]
pub struct Told {
    pub outcome: Outcome,
    pub program: u32,
}

fn after_steps(refused: u32, ended: bool) -> Outcome
    ensures { result ≡ after_steps refused ended }
{
    if refused != 0 {
        return Outcome::Refused;
    }
    if ended {
        return Outcome::Done;
    }
    Outcome::Unfinished
}

// A fault of the answer's text is the candidate's, of any other text the paper's.
fn fault_in(text: Text) -> Outcome
    ensures { result ≡ fault_in text }
{
    match text {
        Text::Neither => Outcome::OfPaper,
        Text::Sheet => Outcome::OfPaper,
        Text::Answer => Outcome::Fault,
        Text::Times => Outcome::OfPaper,
        Text::Start => Outcome::OfPaper,
    }
}

// The texts are read and walked as the judge does, into words of which the end is asked.
pub fn outcome(paper: Paper<'_>, answer: &[u8]) -> Told
    ensures outcome { result.outcome ≡ outcome_of (lent paper.entry) answer.now }
    ensures program { result.program ≡ (said_program paper.entry.sheet.now).count }
{
    let mut state = [0u32; 930];
    let mut tables = [0u32; 2002];
    let mut program = [0u32; 1282];
    let mut begun = [0u32; 288];
    let opened = open_paper(paper, &mut tables, &mut program, &mut state, &mut begun);
    let mut steps = [0u32; 3073];
    let said = read_answer::fill_answer(answer, &mut steps);
    let count = instructions(&program);
    if let Err(fault) = outcome_of(paper.sheet, opened, answer, said) {
        return Told {
            outcome: fault_in(fault.text),
            program: count,
        };
    }
    let passed = walk_words(&tables, &program, &begun, &steps, &mut state);
    let ended = all_done(&program, &state);
    Told {
        outcome: after_steps(passed.refused, ended),
        program: count,
    }
}

// What the paper itself is refused with: 0 where nobody bears a fault of the sheet, the start or the times.
pub fn paper_verdict(paper: Paper<'_>, times: Option<&[u8]>) -> Verdict
    ensures { result ≡ paper_verdict (lent paper.entry) (is_some times.entry) (text_lent times.entry) }
{
    let mut report = [0u8; LENT_BYTES];
    let answer = b"answer=1\nsteps=0\n";
    match times {
        Some(times) => timing_lib::timed(paper, answer, times, &mut report).verdict,
        None => judge_lib::judge(paper, answer, &mut report),
    }
}

// `done`, `unfinished`, `refused`, `fault`.
// As sitting_shown's write_which, of another enum: a table of both would need a name of its own for each case.
pub fn write_outcome(t: &mut [u8], at: usize, outcome: Outcome) -> usize
    ensures { Written t.old (outcome_text outcome) t.new at result }
{
    match outcome {
        Outcome::Done => write_key(t, at, b"done"),
        Outcome::Unfinished => write_key(t, at, b"unfinished"),
        Outcome::Refused => write_key(t, at, b"refused"),
        Outcome::Fault => write_key(t, at, b"fault"),
        Outcome::OfPaper => write_key(t, at, b"paper"),
    }
}
