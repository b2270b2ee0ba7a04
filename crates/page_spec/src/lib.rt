// The markers' page, as bytes, in specs/: constant pieces, numbers, words of 01, and bytes of others as markup shows them. No code.
// Proved: every `<`, `>`, `&` and quotation mark of a page is a constant piece's; a page is ASCII; what is written at once has room in the program's buffer.
#![tactic(auto)]

// What a page says of an answer beside the texts: `group` is the refusal's number, 0 where it is done, 39 unfinished, 40 unreadable; `line` is where the answer
// is looked at, from 1; then the instructions done, how many the program has, and the mark, where the paper has times.
#[derive(Clone, Copy)]
pub struct Found {
    pub group: usize,
    pub line: usize,
    pub next: usize,
    pub program: usize,
    pub mark: Option<usize>,
}
