// Words of a lent array, in areas one after the other: each reader and writer is total, so that no caller need know where an area ends.
// Promised: a word past its area's end is 0 and takes nothing, and a writer changes one word.
#![tactic(auto)]

ghost use Rattle.std.specs.Prelude.{◌≡◌, get_or, set};
ghost use Rattle.areas.specs.Area.{area, put_in};

use model::{at_or, put_at};

// Word k of the area of n words from `at` on.
pub fn in_area(words: &[u32], at: u32, n: u32, k: usize) -> u32
    ensures { result ≡ get_or (area words.now at n) k 0 }
{
    if k < n as usize {
        at_or(words, at as usize + k, 0)
    } else {
        0
    }
}

pub fn put_in_area(words: &mut [u32], at: u32, n: u32, k: usize, x: u32)
    ensures { words.new ≡ put_in words.old at n k x }
{
    if k < n as usize {
        put_at(words, at as usize + k, x);
    }
}
