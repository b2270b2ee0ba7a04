// The words of what had been pushed before the first instruction. Fewer words than there may be say that there was no more.
ghost use Rattle.std.specs.Prelude.{◌≡◌, get_or};
ghost use Rattle.model.specs.Empty.{none_begun};
ghost use Rattle.words.specs.Words.{begun_in};
ghost use Rattle.words.specs.Parts.{with_begun_slot, with_last};

use crate::{BegunWords, RowsAt, cell, put_row};

// Where the queue slots and the last tickets stand.
const QUEUE: RowsAt = RowsAt {
    at: 0,
    count: 256,
    width: 1,
};

const LASTS: RowsAt = RowsAt {
    at: 256,
    count: 32,
    width: 1,
};

// Queue slot n of all: 0 past the last.
pub fn begun_slot(begun: &[u32], n: usize) -> u32
    ensures { result ≡ get_or (begun_in begun.now).queue n 0 }
{
    cell(begun, QUEUE, n, 0)
}

// The last ticket of instance i, one more than it, and 0 for none.
pub fn begun_last(begun: &[u32], i: u32) -> u32
    ensures { result ≡ get_or (begun_in begun.now).last i 0 }
{
    cell(begun, LASTS, i as usize, 0)
}

pub fn put_begun_slot(begun: &mut BegunWords, n: usize, x: u32)
    ensures { begun_in begun.new ≡ with_begun_slot (begun_in begun.old) n x }
{
    put_row(begun, QUEUE, n, 0, &[x]);
}

pub fn put_begun_last(begun: &mut BegunWords, i: u32, x: u32)
    ensures { begun_in begun.new ≡ with_last (begun_in begun.old) i x }
{
    put_row(begun, LASTS, i as usize, 0, &[x]);
}

// Nothing had been pushed.
pub fn clear_begun(begun: &mut BegunWords)
    ensures { begun_in begun.new ≡ none_begun }
{
    *begun = [0u32; 288];
}
