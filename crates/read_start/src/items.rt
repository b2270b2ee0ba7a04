// A queue as a start says it: items joined by `+`, head first, `-` for none. An item is a behavior, or a behavior and a ticket; its stamp is one more than the
// ticket, and 0 without one.
ghost use Rattle.std.specs.Prelude.{◌≡◌, min, ◌≤◌, drop};
ghost use Rattle.item_spec.specs.Items.{item_then, items};
ghost use Rattle.model.specs.View.{pair_of, instance};
ghost use Rattle.start_spec.specs.Row.{last_form, items_ok, rises_to, pushed_all};
ghost use Rattle.read_items.specs.Reads.{Reads};
ghost use Rattle.read_items.specs.Says.{number_says};
ghost use Rattle.words.specs.Words.{state_in};
ghost use Rattle.words.specs.Parts.{in_word};
ghost use Rattle.read_start.specs.Items.{item_in, queue_by, pair_says, item_says, item_put, ItemsRead, QueueRead, pairs_in, PairedUp, queue_in};

use model::{at_or, put_at, smaller};
use read_items::{Digits, number_then, past_key};
use step_instructions::push_to;
use words::StateWords;

// The stamp of the last ticket that there is: 255.
pub(crate) const LAST_STAMP: u32 = 256;

// A behavior and its stamp.
#[derive(Clone, Copy)]
struct Pair {
    behavior: u32,
    stamp: u32,
}

// How many items a queue has, and the stamp of the last ticket pushed, 0 for none. The items stand in lent slots: each word is written once, and pushed from
// there.
#[derive(Clone, Copy)]
pub struct Queue {
    pub count: usize,
    pub last: u32,
}

// An item, and the place past the byte that ends it.
fn pair_then(s: &[u8], at: usize, end: u8, tickets: bool) -> Option<(Pair, usize)>
    ensures { Reads s.now (pair_says result) (item_in tickets end (drop at s.now)) }
{
    if !tickets {
        let (behavior, past) = number_then(s, at, end, Digits::Five)?;
        let alone = Pair { behavior, stamp: 0 };
        return Some((alone, past));
    }
    let (behavior, i) = number_then(s, at, b':', Digits::Five)?;
    let (ticket, next) = number_then(s, i, end, Digits::Five)?;
    let stamp = ticket + 1;
    Some((Pair { behavior, stamp }, next))
}

// The same, and whether another follows.
fn item_then(s: &[u8], at: usize, end: u8, tickets: bool) -> Option<(Pair, bool, usize)>
    ensures { Reads s.now (item_says result) (item_then (item_in tickets) end (drop at s.now)) }
{
    if let Some((pair, next)) = pair_then(s, at, b'+', tickets) {
        return Some((pair, true, next));
    }
    let (last, next) = pair_then(s, at, end, tickets)?;
    Some((last, false, next))
}

// Item n: its behavior in the first eight slots, its stamp in the others; past the eighth none is kept.
fn put_item(slots: &mut [u32; 16], n: usize, pair: Pair)
    ensures { slots.new ≡ item_put slots.old n pair.behavior pair.stamp }
{
    if 8 <= n {
        return;
    }
    put_at(slots, n, pair.behavior);
    put_at(slots, 8 + n, pair.stamp);
}

// The first eight items go into the lent slots; all are counted: how many there are, and the place.
fn items_then(
    s: &[u8],
    at: usize,
    end: u8,
    tickets: bool,
    slots: &mut [u32; 16],
) -> Option<(usize, usize)>
    ensures { ItemsRead s.now slots.new (items (item_in tickets) end (drop at s.now)) result }
{
    *slots = [0u32; 16];
    let none = [b'-', end];
    if let Some(next) = past_key(s, at, &none) {
        return Some((0, next));
    }
    let mut i = at;
    let mut n: usize = 0;
    // From item to item, as far as each one reached: no place is counted.
    while i < s.len() {
        let (pair, more, next) = item_then(s, i, end, tickets)?;
        put_item(slots, n, pair);
        n += 1;
        if !more {
            return Some((n, next));
        }
        i = next;
    }
    None
}

// The last ticket pushed, `-` for none, to the line's end.
fn last_form(s: &[u8], at: usize) -> Option<(u32, usize)>
    ensures { Reads s.now (number_says result) (last_form (drop at s.now)) }
{
    if let Some(next) = past_key(s, at, b"-\n") {
        return Some((0, next));
    }
    let (ticket, next) = number_then(s, at, b'\n', Digits::Five)?;
    let stamp = ticket + 1;
    Some((stamp, next))
}

// The queue, with the last ticket where there are tickets.
pub(crate) fn queue_form(
    s: &[u8],
    at: usize,
    tickets: bool,
    slots: &mut [u32; 16],
) -> Option<(Queue, usize)>
    ensures { QueueRead s.now slots.new (queue_by tickets (drop at s.now)) result }
{
    if !tickets {
        let (count, past) = items_then(s, at, b'\n', false, slots)?;
        let alone = Queue { count, last: 0 };
        return Some((alone, past));
    }
    let (count, i) = items_then(s, at, b',', true, slots)?;
    let (last, next) = last_form(s, i)?;
    Some((Queue { count, last }, next))
}

// Every behavior of the queue is one of the n that the type has, and tickets go to 255; past the eighth item none is looked at.
pub(crate) fn items_ok(n: u32, slots: &[u32], count: usize) -> bool
    ensures { result ≡ items_ok n (pairs_in slots.now (min count 8)) }
{
    for r in 0..smaller(count, 8) {
        let known = (at_or(slots, r, 0) < n) & (at_or(slots, 8 + r, 0) <= LAST_STAMP);
        if !known {
            return false;
        }
    }
    true
}

// What a behavior and its stamp put into their slot, and 0 where that is no word.
fn slot_word(behavior: u32, stamp: u32) -> u32
    ensures { result ≡ in_word (pair_of behavior stamp) }
{
    let s = (stamp as usize) * 8 + behavior as usize;
    u32::try_from(s).unwrap_or(0)
}

// Each of the first eight slots gets what its behavior and its stamp put there.
pub(crate) fn pair_up(slots: &mut [u32; 16])
    ensures { PairedUp slots.old slots.new }
{
    for r in 0..8 {
        let x = slot_word(at_or(slots, r, 0), at_or(slots, 8 + r, 0));
        put_at(slots, r, x);
    }
}

// The stamps rise, and the last one is this.
pub(crate) fn rises_to(last: u32, slots: &[u32], count: usize) -> bool
    ensures { result ≡ rises_to last (queue_in slots.now count) }
{
    let n = smaller(count, slots.len());
    if n == 0 {
        return true;
    }
    for r in 1..n {
        if at_or(slots, r, 0) / 8 <= at_or(slots, r - 1, 0) / 8 {
            return false;
        }
    }
    at_or(slots, n - 1, 0) / 8 == last
}

// All of them pushed, head first.
pub(crate) fn push_all(state: &mut StateWords, i: u32, slots: &[u32], count: usize)
    ensures { count ≤ 8 → (instance (state_in state.old) i).queued ≡ 0
        → state_in state.new ≡ pushed_all (state_in state.old) i (queue_in slots.now count) }
{
    let queue = &slots[..smaller(count, slots.len())];
    for word in queue {
        push_to(state, i, *word);
    }
}
