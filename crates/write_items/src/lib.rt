// Item writers: each writes at a position of a lent buffer, cuts at the buffer's end what has no room, and answers the position after.
// Promised by the one record `Written`: the position after, and every byte of the buffer, for every buffer, position and item.
#![tactic(auto)]

ghost use Rattle.std.specs.Prelude.{[], ◌∷◌};
ghost use Rattle.item_spec.specs.Write.{digits_in, number_text, mask_text};
ghost use Rattle.write_items.specs.Written.{Written};

use model::smaller;
use sets::{later, least};

pub fn write_byte(t: &mut [u8], at: usize, b: u8) -> usize
    ensures { Written t.old (b ∷ []) t.new at result }
{
    if t.len() <= at {
        return at;
    }
    t[at] = b;
    at + 1
}

// A key, or any bytes: those that have room are copied at once.
pub fn write_key(t: &mut [u8], at: usize, key: &[u8]) -> usize
    ensures { Written t.old key.now t.new at result }
{
    if t.len() <= at {
        return at;
    }
    let n = smaller(key.len(), t.len() - at);
    t[at..at + n].copy_from_slice(&key[..n]);
    at + n
}

// The last digits of v, so many at most.
fn write_digits(t: &mut [u8], at: usize, digits: u8, v: usize) -> usize
    ensures { Written t.old (digits_in digits v) t.new at result }
{
    if digits == 0 {
        return at;
    }
    if v < 10 {
        return write_byte(t, at, b'0' + v as u8);
    }
    let p = write_digits(t, at, digits - 1, v / 10);
    write_byte(t, p, b'0' + (v % 10) as u8)
}

// A number in decimal: no usize has more than 20 digits. Most numbers of a report have one or two.
pub fn write_number(t: &mut [u8], at: usize, v: usize) -> usize
    ensures { Written t.old (number_text v) t.new at result }
{
    if v < 10 {
        return write_byte(t, at, b'0' + v as u8);
    }
    if v < 100 {
        let p = write_byte(t, at, b'0' + (v / 10) as u8);
        return write_byte(t, p, b'0' + (v % 10) as u8);
    }
    write_digits(t, at, 20, v)
}

// A mask as the list of its members, the least of the rest at each turn.
pub fn write_mask(t: &mut [u8], at: usize, m: u32) -> usize
    ensures { Written t.old (mask_text m) t.new at result }
{
    if m == 0 {
        return write_byte(t, at, b'-');
    }
    let mut p = write_number(t, at, least(m) as usize);
    let mut rest = later(m);
    while rest != 0 {
        p = write_byte(t, p, b'+');
        p = write_number(t, p, least(rest) as usize);
        rest = later(rest);
    }
    p
}
