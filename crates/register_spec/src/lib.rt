// A row of the register, as a struct, and in specs/ what it says of an answer on a paper and how it is written. No code.
// Proved: a row splits into its nine cells, none of which a spreadsheet works out.
#![tactic(auto)]

use model::Concerned;
use outcome_spec::Outcome;

// What a row says beside the name: the outcome; the judge's number, use port and counts; the answer's line, of a step that is refused or of a fault; how many
// instructions the program has; and the mark, where the paper has times.
#[derive(Clone, Copy)]
pub struct Row {
    pub outcome: Outcome,
    pub number: u8,
    pub port: Concerned,
    pub line: usize,
    pub accepted: usize,
    pub next: usize,
    pub program: usize,
    pub mark: Option<usize>,
}
