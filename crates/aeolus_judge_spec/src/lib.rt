// What the judge of the Aeolus paper answers, as a struct, and in specs/ the paper as one function of the two texts and the room. No code.
// Proved: the marked cases, that 6 never occurs with a room of 8,192, that the four shams are told apart, that no other outcome fits.
#![tactic(auto)]

use model::Text;

// `refused` is the number or 0; `written` the bytes of the report; `text` and `line` are told for 1 to 5 alone.
// Not a Result: Promised (specs/Once) is of each field, and a refused plan has a report as well.
#[derive(Drop)]
pub struct Verdict {
    pub refused: u8,
    pub accepted: usize,
    pub written: usize,
    pub text: Text,
    pub line: usize,
}
