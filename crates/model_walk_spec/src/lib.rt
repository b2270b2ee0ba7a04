// How a model walk ends, as an enum, and in specs/ the order in which steps are tried, the walk, and what is claimed of it. No code.
#![tactic(auto)]

// "done (program at its end, all queues empty, at whatever length), cut (1,024 steps and not done), or stuck (fewer, and not done)"
// NoEnding stands beside a refusal.
#[derive(Clone, Copy)]
pub enum Ending {
    NoEnding,
    Done,
    Cut,
    Stuck,
}
