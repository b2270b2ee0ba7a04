// The outcome of an answer on a paper, as an enum, and in specs/ what each of its cases means; the fault of a paper alone. No code.
// Proved: done is what the model walk's ending calls so; where a paper has no fault of its own, no answer gets one; a table of cases.
#![tactic(auto)]

// `Done`: nothing is refused, the program is at its end, every queue is empty. `Unfinished`: nothing is refused, and it isn't done. `Refused`: a step is.
// `Fault`: the answer's text is. `OfPaper`: the sheet or the start is, which is no candidate's fault.
#[derive(Clone, Copy)]
pub enum Outcome {
    Done,
    Unfinished,
    Refused,
    Fault,
    OfPaper,
}
