// What a program's names foretell, as a struct, and in specs/ what it is and what it tells of every walk and of every judged answer. No code.
#![tactic(auto)]

// How many instructions the names allow, one after the other, and the number of the one after them, 0 where there is none.
// Not a Result: foretold (specs/Names) is an equation of both, and a number stands beside a count.
#[derive(Clone, Copy)]
pub struct Foretelling {
    pub next: u32,
    pub refused: u32,
}
