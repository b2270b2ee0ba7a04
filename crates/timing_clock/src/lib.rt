// The clock of an answer beside its walk, and the mark that it comes to.
// Promised: the walk is that of rules_spec/specs, and the mark that of timing_spec/specs, for every table, answer and times.
#![tactic(auto)]

ghost use Rattle.std.specs.Prelude.{◌≡◌, cond, List, ℕ, ◌+◌, max, get_or, set};
ghost use Rattle.sets.specs.Mask.{member};
ghost use Rattle.model.specs.declared.Configuration.{Configuration};
ghost use Rattle.times_spec.specs.View.{pair_slot};
ghost use Rattle.timing_spec.specs.Clock.{started, notes};
ghost use Rattle.judge_spec.specs.Course.{default_depth};
ghost use Rattle.words.specs.Words.{tables_in, program_from, answer_in, state_in};
ghost use Rattle.words.specs.Parts.{step_of};
ghost use Rattle.timing_clock.specs.Once.{Promised, times_in};
ghost use Rattle.timing_clock.specs.Paced.{clock_at, InTime, Ticks};

use judge_spec::DEFAULT_DEPTH;
use model::{Concerned, at_or, put_at};
use sets::{member, without};
use step_walk::{Passed, step, step_count};
use timing_mark::{later, mark};
use words::answer::step_at;
use words::state::running;
use words::{AnswerWords, ProgramWords, StateWords, TableWords};

const FIRE: u32 = 1;

const END: u32 = 2;

// How far a walk came, and the mark: 0 after a refused step.
#[derive(Clone, Copy)]
pub struct TimedWalk {
    pub passed: Passed,
    pub mark: usize,
}

fn pair_slot(id: u32, x: u32) -> usize
    ensures { result ≡ pair_slot id x }
{
    (id as usize) * 32 + x as usize
}

// The clock, noted for transition x, where xs has it. A slot past the table is no slot.
fn note_at(noted: &mut [usize], clock: usize, id: u32, xs: u32, x: u32)
    ensures { noted.new ≡ cond (member x xs) (set noted.old (pair_slot id x) clock) noted.old }
{
    let slot = pair_slot(id, x);
    if member(xs, x) {
        put_at(noted, slot, clock);
    }
}

fn note(noted: &mut [usize], clock: usize, id: u32, xs: u32)
    ensures { noted.new ≡ notes clock id xs 32 noted.old }
{
    for x in 0..32 {
        note_at(noted, clock, id, xs, x);
    }
}

// The later of the clock and the noted time plus the seconds, both 0 past their tables.
fn end_at(seconds: &[u32], noted: &[usize], clock: usize, slot: usize) -> usize
    requires { InTime (clock_at clock noted.now) }
    ensures { result ≡ max clock (get_or noted.now slot 0 + get_or seconds.now slot 0) }
{
    let noted = at_or(noted, slot, 0);
    let seconds = at_or(seconds, slot, 0);
    later(clock, noted + seconds as usize)
}

// The clock after an allowed step, in which component `id` starts the transitions xs.
fn tick(
    seconds: &[u32],
    noted: &mut [usize],
    clock: usize,
    xs: u32,
    verb: u32,
    id: u32,
    number: u32,
) -> usize
    requires { InTime (clock_at clock noted.old) }
    ensures { (c d : Configuration) → xs ≡ started c d id
        → Ticks seconds.now c d (step_of verb id number) (clock_at clock noted.old) (clock_at result noted.new) }
{
    match verb {
        FIRE => {
            note(noted, clock, id, xs);
            clock
        }
        END => end_at(seconds, noted, clock, pair_slot(id, number)),
        _ => clock,
    }
}

// The walk of an answer from what the state's words say, where this had been pushed before, with the clock beside it, of times with this par and these seconds.
pub fn walk_timed(
    tables: &TableWords,
    program: &ProgramWords,
    begun: &[u32],
    answer: &AnswerWords,
    state: &mut StateWords,
    par: u32,
    seconds: &[u32; 1024],
) -> TimedWalk
    ensures { (listed : List ℕ)
        → Promised default_depth (tables_in tables.now) (program_from program.now begun.now) (state_in state.old)
        (answer_in answer.now) (times_in par listed seconds.now) result (state_in state.new) }
{
    let n = step_count(answer);
    let mut noted = [0usize; 1024];
    let mut clock: usize = 0;
    for k in 0..n {
        let due = step_at(answer, k);
        let verb = due.verb;
        let id = due.id;
        let number = due.number;
        let before = running(state, id);
        let answered = step(DEFAULT_DEPTH as u32, tables, program, begun, state, due);
        let refused = answered.refused;
        let port = answered.port;
        if refused != 0 {
            let passed = Passed {
                accepted: k,
                refused,
                port,
            };
            return TimedWalk { passed, mark: 0 };
        }
        let xs = without(running(state, id), before);
        clock = tick(seconds, &mut noted, clock, xs, verb, id, number);
    }
    let passed = Passed {
        accepted: n,
        refused: 0,
        port: Concerned::NoPort,
    };
    let mark = mark(par, clock);
    TimedWalk { passed, mark }
}
