// How far the texts come: all are read into words, and where they say something the answer is walked.
// Promised: the order of the texts, what the sheet and the start say, and the course of crates/judge_spec/specs.
ghost use Rattle.std.specs.Prelude.{◌≡◌, length};
ghost use Rattle.read_sheet.specs.Sheet.{sheet_read};
ghost use Rattle.model.specs.View.{steps_of};
ghost use Rattle.judge_spec.specs.Course.{default_depth, course};
ghost use Rattle.judge_spec.specs.Next.{whole_course};
ghost use Rattle.words.specs.Words.{tables_in, program_in, begun_in, program_from, answer_in, state_in};
ghost use Rattle.step_walk.specs.Reached.{walked};
ghost use Rattle.step_walk.specs.Held.{held_walk};
ghost use Rattle.rules_spec.specs.PushB.{depth_of};
ghost use Rattle.judge_spec.specs.Lent.{begins, lent};
ghost use Rattle.read_chain.specs.Whole.{beside};
ghost use Rattle.model.specs.Empty.{start, none_begun};
ghost use Rattle.read_start.specs.Start.{queue_room};
ghost use Rattle.judge_lib.specs.Came.{begin_read, alone_as, short_as, read_as, outcome_of, came, start_long};

use item_spec::TOO_LONG;
use judge_spec::{DEFAULT_DEPTH, Paper};
use model::Text;
use read_chain::Place;
use read_lines::LONGEST;
use read_start::LONGEST_START;
use step_walk::Passed;
use words::begun::clear_begun;
use words::program::edition;
use words::state::clear_state;
use words::{AnswerWords, BegunWords, ProgramWords, StateWords, TableWords};

// A text is refused with a reader's number, at a place of it.
#[derive(Clone, Copy)]
pub struct TextFault {
    pub text: Text,
    pub refused: u8,
    pub at: usize,
}

// What the readers of a paper's texts answered, and whether the start is too long.
#[derive(Drop)]
pub struct Opened {
    pub sheet: Place,
    pub long: bool,
    pub start: Place,
}

// A sheet with no start beside it.
pub fn alone(sheet: Place) -> Opened
    ensures { result ≡ alone_as sheet }
{
    let start = Place {
        refused: 0,
        place: 0,
    };
    Opened {
        sheet,
        long: false,
        start,
    }
}

// "with 1" where a text is too long
fn short(text: Text, long: bool) -> Result<(), TextFault>
    ensures { result ≡ short_as text long }
{
    if long {
        let refused = TOO_LONG;
        return Err(TextFault {
            text,
            refused,
            at: 0,
        });
    }
    Ok(())
}

// What a text's reader answered: 0, or a fault at a place.
fn read(text: Text, said: Place) -> Result<(), TextFault>
    ensures { result ≡ read_as text said }
{
    if said.refused != 0 {
        return Err(TextFault {
            text,
            refused: said.refused,
            at: said.place,
        });
    }
    Ok(())
}

// "The three lengths come first (sheet, start, answer), then the lines in that order", of what the texts' readers answered
pub fn outcome_of(
    sheet: &[u8],
    opened: Opened,
    answer: &[u8],
    steps: Place,
) -> Result<(), TextFault>
    ensures { result ≡ outcome_of (length sheet.now) opened (length answer.now) steps }
{
    short(Text::Sheet, LONGEST < sheet.len())?;
    short(Text::Start, opened.long)?;
    short(Text::Answer, LONGEST < answer.len())?;
    read(Text::Sheet, opened.sheet)?;
    read(Text::Start, opened.start)?;
    read(Text::Answer, steps)
}

// Where the paper of a sheet that opens with this number begins, into words that say nothing is up and nothing was pushed: "no file: nothing up".
fn begin(
    first: u32,
    text: Option<&[u8]>,
    tables: &TableWords,
    state: &mut StateWords,
    begun: &mut BegunWords,
) -> Place
    requires { (state_in state.old ≡ start) × (begun_in begun.old ≡ none_begun) }
    ensures { beside result (state_in state.new, begun_in begun.new)
        ≡ begin_read first (queue_room 8 (tables_in tables.now)) (tables_in tables.now) (begins text.entry) }
{
    let Some(start) = text else {
        return Place {
            refused: 0,
            place: 0,
        };
    };
    read_start::fill_start(DEFAULT_DEPTH as u32, first, start, tables, state, begun)
}

fn is_long(text: Option<&[u8]>) -> bool
    ensures { result ≡ start_long (begins text.entry) }
{
    let Some(start) = text else {
        return false;
    };
    LONGEST_START < start.len()
}

// What the sheet and the start say, into words of a state in which nothing is up and nothing was pushed: whoever has just made them need not clear them again.
pub(crate) fn open_cleared(
    paper: Paper<'_>,
    tables: &mut TableWords,
    program: &mut ProgramWords,
    state: &mut StateWords,
    begun: &mut BegunWords,
) -> Opened
    requires { (state_in state.old ≡ start) × (begun_in begun.old ≡ none_begun) }
    ensures sheet { beside result.sheet (tables_in tables.new, program_in program.new) ≡ sheet_read paper.entry.sheet.now }
    ensures long { result.long ≡ start_long (lent paper.entry).beginning }
    ensures begins { beside result.start (state_in state.new, begun_in begun.new)
        ≡ begin_read (program_in program.new).edition (depth_of 8 (tables_in tables.new)) (tables_in tables.new)
        (lent paper.entry).beginning }
{
    let sheet = read_sheet::fill_sheet(paper.sheet, tables, program);
    let start = begin(edition(program), paper.start, tables, state, begun);
    let long = is_long(paper.start);
    Opened { sheet, long, start }
}

// The same in any words, whatever these held before.
pub fn open_paper(
    paper: Paper<'_>,
    tables: &mut TableWords,
    program: &mut ProgramWords,
    state: &mut StateWords,
    begun: &mut BegunWords,
) -> Opened
    ensures sheet { beside result.sheet (tables_in tables.new, program_in program.new) ≡ sheet_read paper.entry.sheet.now }
    ensures long { result.long ≡ start_long (lent paper.entry).beginning }
    ensures begins { beside result.start (state_in state.new, begun_in begun.new)
        ≡ begin_read (program_in program.new).edition (depth_of 8 (tables_in tables.new)) (tables_in tables.new)
        (lent paper.entry).beginning }
{
    clear_state(state);
    clear_begun(begun);
    open_cleared(paper, tables, program, state, begun)
}

// The walk of what these words say.
pub fn walk_words(
    tables: &TableWords,
    program: &ProgramWords,
    begun: &BegunWords,
    steps: &AnswerWords,
    state: &mut StateWords,
) -> Passed
    ensures { walked result (state_in state.new)
        ≡ held_walk default_depth (tables_in tables.now) (program_from program.now begun.now) (state_in state.old)
        (steps_of (answer_in steps.now)) }
{
    step_walk::walk(DEFAULT_DEPTH as u32, tables, program, begun, steps, state)
}

// ".. the answer's lines, the steps": the walk starts where the paper begins, in words that were just made. The program's, and those of what had been pushed
// before its first line, are lent for who looks at them afterwards.
pub(crate) fn walk_paper(
    paper: Paper<'_>,
    answer: &[u8],
    program: &mut ProgramWords,
    begun: &mut BegunWords,
    state: &mut StateWords,
) -> Result<Passed, TextFault>
    requires { (state_in state.old ≡ start) × (begun_in begun.old ≡ none_begun) }
    ensures { came result (λ w. (program_from program.new begun.new, walked w (state_in state.new)))
        ≡ whole_course (lent paper.entry) answer.now }
{
    let mut tables = [0u32; 2002];
    let opened = open_cleared(paper, &mut tables, program, state, begun);
    let mut steps = [0u32; 3073];
    let said = read_answer::fill_answer(answer, &mut steps);
    outcome_of(paper.sheet, opened, answer, said)?;
    Ok(walk_words(&tables, program, begun, &steps, state))
}

pub(crate) fn walk_texts(
    paper: Paper<'_>,
    answer: &[u8],
    state: &mut StateWords,
) -> Result<Passed, TextFault>
    requires { state_in state.old ≡ start }
    ensures { came result (λ w. walked w (state_in state.new)) ≡ course (lent paper.entry) answer.now }
{
    let mut program = [0u32; 1282];
    let mut begun = [0u32; 288];
    walk_paper(paper, answer, &mut program, &mut begun, state)
}
