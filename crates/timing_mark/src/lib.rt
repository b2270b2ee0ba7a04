// The later of two times, and the mark that a clock comes to.
// Promised: each is the definition's, of all numbers.
#![tactic(auto)]

ghost use Rattle.std.specs.Prelude.{◌≡◌, max};
ghost use Rattle.timing_spec.specs.Mark.{mark_of};

use judge_spec::Verdict;
use model::smaller;
use timing_spec::Timed;

const FULL_MARK: usize = 1000;

// 2,000 times more than a par can be: from there on the nearest is 0.
const PAST_EVERY_PAR: usize = 8589934592000;

// std's max, by the name that the promise has (docs/PROMISES.md).
pub fn later(a: usize, b: usize) -> usize
    ensures { result ≡ max a b }
{
    if a < b { b } else { a }
}

// 1,000 times par over the clock, to the nearest, halves down: one division, of numbers that the machine holds.
pub fn mark(par: u32, clock: usize) -> usize
    ensures { result ≡ mark_of par clock }
{
    if clock == 0 {
        return FULL_MARK;
    }
    if PAST_EVERY_PAR <= clock {
        return 0;
    }
    smaller(FULL_MARK, (2000 * (par as usize) + clock - 1) / (2 * clock))
}

// "after any refusal, 1 to 6 too, the mark is 0"
pub fn unmarked(verdict: Verdict) -> Timed
    ensures { result ≡ record { verdict = verdict; mark = 0 } }
{
    Timed { verdict, mark: 0 }
}
