// The pass line, and where a line of the register stands by it, as enums, and in specs/ what each of their cases means; the list that is made of a register.
// No code. Proved: of a register's lines exactly the rows that are done with a mark not below the pass line are on the list, in the register's order; a row
// that the register writes stands so exactly when its answer is done and its mark is not below; what is no register is refused.
#![tactic(auto)]

// The pass line: a mark, or for a paper without times none. No Option: beside a row's mark, which is one, the names tell which is which.
#[derive(Clone, Copy)]
pub enum Pass {
    AtLeast(u32),
    NoTimes,
}

// A cell whose bytes are looked at one by one: the name, or a number or nothing.
#[derive(Clone, Copy)]
pub enum Cell {
    Name,
    Number,
}

// What a row's second cell says: the candidate is absent, or the outcome.
#[derive(Clone, Copy)]
pub enum Said {
    Done,
    Unfinished,
    Refused,
    Fault,
    Absent,
}

// `Below`: done, with a mark below the pass line. `OtherKind`: the pass line is a mark and the row has none, or the other way round. `NoRow`: it is no row,
// nor the head where that is due. `Head`: it is.
#[derive(Clone, Copy)]
pub enum Standing {
    Passed,
    Below,
    Unfinished,
    Refused,
    Fault,
    Absent,
    OtherKind,
    NoRow,
    Head,
}

// Why no list is made: the text is no register, or the pass line is of the other kind.
#[derive(Clone, Copy)]
pub enum Wrong {
    Register,
    Kind,
}
