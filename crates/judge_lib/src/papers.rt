// A paper alone, before any answer exists: what its texts say.
// Promised: the text, the number and the line of a fault as the judge gives them, and what every lent word says.
ghost use Rattle.std.specs.Prelude.{◌≡◌, length};
ghost use Rattle.judge_spec.specs.Course.{paper_course};
ghost use Rattle.judge_spec.specs.Lent.{lent};
ghost use Rattle.words.specs.Words.{tables_in, program_from, state_in};
ghost use Rattle.judge_lib.specs.Came.{outcome_of};
ghost use Rattle.judge_lib.specs.Alone.{unanswered, no_fault, fault_at, paper_fault, said_by};

use crate::pairs::{Opened, TextFault, open_paper, outcome_of};
use crate::parts::text_of;
use judge_spec::Paper;
use judge_verdicts::after_fault;
use model::Text;
use read_chain::Place;
use words::begun::clear_begun;
use words::program::clear_program;
use words::state::clear_state;
use words::tables::clear_tables;
use words::{BegunWords, ProgramWords, StateWords, TableWords};

// `refused` is 0, or the number of a fault, 1 to 5 or 50, with its text and its line.
#[derive(Drop)]
pub struct PaperFault {
    pub text: Text,
    pub refused: u8,
    pub line: usize,
}

// How far a paper comes by itself: no answer is lent, so none is at fault.
fn paper_outcome(sheet: &[u8], opened: Opened) -> Result<(), TextFault>
    ensures { result ≡ outcome_of (length sheet.now) opened 0 unanswered }
{
    let none = Place {
        refused: 0,
        place: 0,
    };
    outcome_of(sheet, opened, b"", none)
}

pub fn no_fault() -> PaperFault
    ensures { result ≡ no_fault }
{
    PaperFault {
        text: Text::Neither,
        refused: 0,
        line: 0,
    }
}

fn fault_at(x: Text, s: &[u8], n: u8, at: usize) -> PaperFault
    ensures { result ≡ fault_at x n at s.now }
{
    let fault = after_fault(x, s, n, at);
    PaperFault {
        text: x,
        refused: n,
        line: fault.line,
    }
}

// What the sheet and the start say, in the lent words, whatever these held before; beside a fault they are cleared.
pub fn read_paper(
    paper: Paper<'_>,
    tables: &mut TableWords,
    program: &mut ProgramWords,
    state: &mut StateWords,
    begun: &mut BegunWords,
) -> PaperFault
    ensures fault { result ≡ paper_fault (lent paper.entry) }
    ensures says { (tables_in tables.new, program_from program.new begun.new, state_in state.new)
        ≡ said_by (paper_course (lent paper.entry)) }
{
    let opened = open_paper(paper, tables, program, state, begun);
    let Err(fault) = paper_outcome(paper.sheet, opened) else {
        return no_fault();
    };
    clear_tables(tables);
    clear_program(program);
    clear_state(state);
    clear_begun(begun);
    let text = fault.text;
    fault_at(text, text_of(paper, b"", text), fault.refused, fault.at)
}
