// A text of times, as a struct, and in specs/ its lines and limits. No code.
// Proved: what its reader gives keeps to the limits, and a text that is refused gets a number from 2 to 5 at one of its lines.
#![tactic(auto)]

// `seconds` has 32 slots for each id, one for each transition; `listed` is 1 where a row named the pair.
#[derive(Clone, Copy)]
pub struct Times {
    pub par: u32,
    pub listed: [u8; 1024],
    pub seconds: [u32; 1024],
}
