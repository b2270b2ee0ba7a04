// Where an answer ends, as the start of another paper: a long paper can be cut in two.
// Promised: on any bytes, every byte of the array is what crates/judge_spec/specs/Next says, and where nothing is written the verdict's number and line.
ghost use Rattle.std.specs.Prelude.{◌≡◌, ◌≤◌, length};
ghost use Rattle.start_spec.specs.Round.{last_of, lasts_of, start_of};
ghost use Rattle.write_items.specs.Written.{Written};
ghost use Rattle.judge_spec.specs.Judged.{lent_bytes};
ghost use Rattle.judge_spec.specs.Lent.{lent};
ghost use Rattle.words.specs.Words.{program_from, state_in};
ghost use Rattle.judge_lib.specs.Room.{Short};
ghost use Rattle.judge_lib.specs.Counts.{Counts};
ghost use Rattle.judge_lib.specs.Next.{Starts, FaultTold, next_in, WalkTold};

use crate::pairs::{TextFault, walk_paper};
use crate::parts::text_of;
use judge_spec::{LENT_BYTES, Paper};
use judge_verdicts::after_fault;
use model::Text;
use step_instructions::tickets::last_stamp;
use step_walk::Passed;
use words::program::edition;
use words::state::{done, present};
use words::{BegunWords, ProgramWords, StateWords};
use write_report::start::write_start;

// How many bytes the start has; where a text or a step is refused they are none, and the rest is of the judge's verdict.
#[derive(Drop)]
pub struct Next {
    pub refused: u8,
    pub accepted: usize,
    pub text: Text,
    pub line: usize,
    pub used: usize,
}

fn after_text(paper: Paper<'_>, answer: &[u8], fault: TextFault) -> Next
    ensures { FaultTold (lent paper.entry) answer.now fault result }
{
    let text = fault.text;
    let refused = fault.refused;
    let verdict = after_fault(text, text_of(paper, answer, text), refused, fault.at);
    Next {
        refused,
        accepted: 0,
        text,
        line: verdict.line,
        used: 0,
    }
}

// "the last ticket pushed to each instance", one more than it: 0 for none, of who is absent, and without tickets.
fn last_of(program: &ProgramWords, begun: &BegunWords, state: &StateWords, i: u32) -> usize
    ensures { result ≡ last_of (program_from program.now begun.now) (state_in state.now) i }
{
    if edition(program) != 2 {
        return 0;
    }
    if present(state, i) {
        return last_stamp(program, begun, i, done(state));
    }
    0
}

fn fill_lasts(
    program: &ProgramWords,
    begun: &BegunWords,
    state: &StateWords,
    lasts: &mut [usize; 32],
)
    ensures { lasts.new ≡ lasts_of (program_from program.now begun.now) (state_in state.now) }
{
    for i in 0..32 {
        lasts[i as usize] = last_of(program, begun, state, i);
    }
}

// The start in which the walk of this program ends.
fn write_next(
    program: &ProgramWords,
    begun: &BegunWords,
    state: &StateWords,
    out: &mut [u8],
) -> usize
    ensures { Written out.old (start_of (program_from program.now begun.now) (state_in state.now))
        out.new 0 result }
{
    let mut lasts = [0usize; 32];
    fill_lasts(program, begun, state, &mut lasts);
    write_start(out, edition(program), &lasts, state)
}

// After a refused step nothing is written.
fn after_steps(
    w: Passed,
    program: &ProgramWords,
    begun: &BegunWords,
    state: &StateWords,
    out: &mut [u8],
) -> Next
    requires short { Short w (next_in w program.now begun.now state.now) }
    requires lent_bytes_in_bounds { lent_bytes ≤ length out.old }
    ensures { WalkTold w program.now begun.now state.now out.old result out.new }
{
    let refused = w.refused as u8;
    let accepted = w.accepted as usize;
    if refused != 0 {
        return Next {
            refused,
            accepted,
            text: Text::Neither,
            line: 0,
            used: 0,
        };
    }
    let used = write_next(program, begun, state, out);
    Next {
        refused,
        accepted,
        text: Text::Neither,
        line: 0,
        used,
    }
}

pub fn next_start(paper: Paper<'_>, answer: &[u8], out: &mut [u8; LENT_BYTES]) -> Next
    ensures starts { Starts (lent paper.entry) answer.now out.old result out.new }
    ensures counts { Counts result.used out.new }
{
    let mut program = [0u32; 1282];
    let mut begun = [0u32; 288];
    let mut state = [0u32; 930];
    match walk_paper(paper, answer, &mut program, &mut begun, &mut state) {
        Ok(passed) => after_steps(passed, &program, &begun, &state, out),
        Err(fault) => after_text(paper, answer, fault),
    }
}
