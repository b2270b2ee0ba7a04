// What the judge answers, as structs, and in specs/ document 01 as one function of the two texts and the room; in code, its numbers.
// Proved: the marked cases, that 6 never occurs with a room of 8,192, that none of the four shams keeps the promise, that no other outcome fits.
#![tactic(auto)]

use model::{Concerned, Text};

// "From the spring sitting 0 stands for 8": `default_depth` of specs/Course, in code.
pub const DEFAULT_DEPTH: u8 = 8;

// "It lends 8,192 bytes": `lent_bytes` of specs/Judged, in code.
pub const LENT_BYTES: usize = 8192;

// `refused` is the number or 0; `port` the use port concerned, for 34 and 38 alone; `written` the bytes of the report; `text` and `line` are told for 1 to 5 alone.
// Not a Result: Judges and NoOtherVerdict (specs/Once) are of each field, and a refused answer has a report as well.
#[derive(Clone, Copy)]
pub struct Verdict {
    pub refused: u8,
    pub port: Concerned,
    pub accepted: usize,
    pub next: usize,
    pub written: usize,
    pub text: Text,
    pub line: usize,
}

// A part of the sheet or of the answer: where it starts, and how many bytes it has.
#[derive(Clone, Copy)]
pub struct Place {
    pub text: Text,
    pub start: usize,
    pub size: usize,
}

// What a setter lends: the sheet, and the start where there is one ("no file: nothing up").
#[derive(Clone, Copy)]
pub struct Paper<'a> {
    pub sheet: &'a [u8],
    pub start: Option<&'a [u8]>,
}
