// Lines of one to four numbers, each below its limit: the form whole first, then the limits.
ghost use Rattle.std.specs.Prelude.{◌≡◌, drop};
ghost use Rattle.read_items.specs.Reads.{Reads};
ghost use Rattle.read_items.specs.Says.{most};
ghost use Rattle.read_items.specs.Within.{numbers_says, numbers_within, held_by, end_of, within};

use crate::{Digits, number_then};
use item_spec::Refusal;

// How many numbers a line has, and what each lies below.
#[derive(Clone, Copy)]
pub enum Limits {
    One(u32),
    Two(u32, u32),
    Three(u32, u32, u32),
    Four(u32, u32, u32, u32),
}

// The numbers of a line, 0 for those that it has not.
#[derive(Clone, Copy)]
pub struct Four {
    pub first: u32,
    pub second: u32,
    pub third: u32,
    pub fourth: u32,
}

// The same limits in one row: a number that the line has not is 0, and so below 1.
#[derive(Clone, Copy)]
struct Held {
    count: usize,
    first: u32,
    second: u32,
    third: u32,
    fourth: u32,
}

fn held_row(count: usize, first: u32, second: u32, third: u32, fourth: u32) -> Held
    ensures { result ≡ record { count = count; first = first; second = second; third = third; fourth = fourth } }
{
    Held {
        count,
        first,
        second,
        third,
        fourth,
    }
}

fn held_by(limits: Limits) -> Held
    ensures { result ≡ held_by limits }
{
    match limits {
        Limits::One(a) => held_row(1, a, 1, 1, 1),
        Limits::Two(a, b) => held_row(2, a, b, 1, 1),
        Limits::Three(a, b, c) => held_row(3, a, b, c, 1),
        Limits::Four(a, b, c, d) => held_row(4, a, b, c, d),
    }
}

// The byte that ends a number where so many are left.
fn end_of(left: usize) -> u8
    ensures { result ≡ end_of left }
{
    if left == 1 { b'\n' } else { b',' }
}

// The numbers of a line from a place on, up to the line's end, and the place past it.
pub fn numbers_within(
    s: &[u8],
    at: usize,
    digits: Digits,
    limits: Limits,
) -> Result<(Four, usize), Refusal>
    ensures { Reads s.now (numbers_says result) (numbers_within (most digits) limits (drop at s.now)) }
{
    let held = held_by(limits);
    let mut got = [0u32; 4];
    let mut next = at;
    for k in 0..held.count {
        let Some((a, i)) = number_then(s, next, end_of(held.count - k), digits) else {
            return Err(Refusal::BadForm);
        };
        got[k] = a;
        next = i;
    }
    let four = Four {
        first: got[0],
        second: got[1],
        third: got[2],
        fourth: got[3],
    };
    if within(four, held) {
        return Ok((four, next));
    }
    Err(Refusal::BeyondLimit)
}

fn within(four: Four, held: Held) -> bool
    ensures { result ≡ within four held }
{
    let ends = (four.third < held.third) & (four.fourth < held.fourth);
    (four.first < held.first) & ((four.second < held.second) & ends)
}
