// What timing answers, as a struct, and in specs/ request C-14 as one function of the three texts and the room. No code.
// Proved: the mark by its meaning, a table of cases, that 6 never occurs with a room of 8,192, what the print shares with the judge's, the shams.
#![tactic(auto)]

use judge_spec::Verdict;

// The judge's verdict, of a report that ends in its mark, and the mark: 0 after any refusal.
#[derive(Drop)]
pub struct Timed {
    pub verdict: Verdict,
    pub mark: usize,
}
