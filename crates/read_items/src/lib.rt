// Readers of the items of a line (a key, a number, a list) and of the shapes of lines, on every text and from every place of it.
// Promised: each answers what its definition in crate forms replies to the text from there on: the value and the place past it, or the fault.
#![tactic(auto)]

pub mod numbers;

ghost use Rattle.std.specs.Prelude.{◌≡◌, min, length, drop};
ghost use Rattle.item_spec.specs.Read.{key, number, list, members_from, one_form, list_form, lists_form};
ghost use Rattle.read_items.specs.Reads.{Reads};
ghost use Rattle.read_items.specs.Says.{most, due_says, number_says, list_says, lists_says};
ghost use Rattle.read_items.specs.Keyed.{keyed};
ghost use Rattle.read_items.specs.Turn.{Small, TakesDigit, TakesMember, Turns};

// How many digits a number may have: five in the two texts. Seven are for a text of times.
#[derive(Clone, Copy)]
pub enum Digits {
    Five,
    Seven,
}

// A list: its members below 32 as a mask, and one more than its greatest member, 0 where it is empty.
#[derive(Clone, Copy)]
pub struct Listed {
    pub mask: u32,
    pub top: u32,
}

// A list of which a part has been read: its whole members, and the digits of the next.
#[derive(Clone, Copy)]
struct SoFar {
    mask: u32,
    top: u32,
    count: usize,
    value: u32,
}

// What a byte does to a list: it goes on, or it ends.
#[derive(Clone, Copy)]
enum Turn {
    On(SoFar),
    End(Listed),
}

// The place at, or the text's end where that lies past it.
pub fn place_in(s: &[u8], at: usize) -> usize
    ensures { result ≡ min at (length s.now) }
{
    at.min(s.len())
}

// The bytes due stand at the place at: the place past them. Whether there are so many is asked once, before the first is looked at.
pub fn past_key(s: &[u8], at: usize, due: &[u8]) -> Option<usize>
    ensures { Reads s.now (due_says result) (key due.now (drop at s.now)) }
{
    let i = place_in(s, at);
    if s.len() - i < due.len() {
        return None;
    }
    for (j, byte) in due.iter().enumerate() {
        if s[i + j] != *byte {
            return None;
        }
    }
    Some(i + due.len())
}

fn most(digits: Digits) -> usize
    ensures { result ≡ most digits }
{
    match digits {
        Digits::Five => 5,
        Digits::Seven => 7,
    }
}

pub fn wide(x: u8) -> u32
    ensures { result ≡ x }
{
    u32::from(x)
}

// The value with the byte c as one digit more, after count digits of that value.
fn digit_after(digits: Digits, count: usize, value: u32, c: u8) -> Option<u32>
    requires { Small count value }
    ensures { TakesDigit (most digits) count value c result }
{
    if c < b'0' {
        return None;
    }
    if b'9' < c {
        return None;
    }
    if most(digits) <= count {
        return None;
    }
    if 0 < count {
        if value == 0 {
            return None;
        }
    }
    let more = value * 10 + wide(c - b'0');
    Some(more)
}

// A number and the byte that ends it: its value, and the place past that byte.
pub fn number_then(s: &[u8], at: usize, end: u8, digits: Digits) -> Option<(u32, usize)>
    ensures { Reads s.now (number_says result) (number (most digits) end (drop at s.now)) }
{
    let mut count: usize = 0;
    let mut value: u32 = 0;
    for i in at..s.len() {
        let c = s[i];
        if c == end {
            if count == 0 {
                return None;
            }
            return Some((value, i + 1));
        }
        let more = digit_after(digits, count, value, c)?;
        value = more;
        count += 1;
    }
    None
}

// The list with its next member, where the digits are there and the member is above all others.
fn member_after(f: SoFar) -> Option<Listed>
    requires { Small f.count f.value }
    ensures { TakesMember f result }
{
    if f.count == 0 {
        return None;
    }
    if f.value < f.top {
        return None;
    }
    let mask = sets::with(f.mask, f.value);
    let top = f.value + 1;
    Some(Listed { mask, top })
}

// One byte of a list.
fn list_byte(f: SoFar, c: u8, end: u8, digits: Digits) -> Option<Turn>
    requires { Small f.count f.value }
    ensures { Turns (most digits) end f c result }
{
    if c == end {
        let listed = member_after(f)?;
        return Some(Turn::End(listed));
    }
    if c == b'+' {
        let listed = member_after(f)?;
        let next = SoFar {
            mask: listed.mask,
            top: listed.top,
            count: 0,
            value: 0,
        };
        return Some(Turn::On(next));
    }
    let value = digit_after(digits, f.count, f.value, c)?;
    let count = f.count + 1;
    let next = SoFar {
        mask: f.mask,
        top: f.top,
        count,
        value,
    };
    Some(Turn::On(next))
}

// The members of a list, one at least, and the byte that ends them.
fn members_then(s: &[u8], at: usize, end: u8, digits: Digits) -> Option<(Listed, usize)>
    ensures { Reads s.now (list_says result) (members_from (most digits) end 0 0 0 0 (drop at s.now)) }
{
    let mut f = SoFar {
        mask: 0,
        top: 0,
        count: 0,
        value: 0,
    };
    for i in at..s.len() {
        let turn = list_byte(f, s[i], end, digits)?;
        match turn {
            Turn::On(more) => {
                f = more;
            }
            Turn::End(listed) => {
                return Some((listed, i + 1));
            }
        }
    }
    None
}

// A list and the byte that ends it; `-` is the empty list.
pub fn list_then(s: &[u8], at: usize, end: u8, digits: Digits) -> Option<(Listed, usize)>
    ensures { Reads s.now (list_says result) (list (most digits) end (drop at s.now)) }
{
    let Some(i) = past_key(s, at, b"-") else {
        return members_then(s, at, end, digits);
    };
    let next = past_key(s, i, &[end])?;
    let none = Listed { mask: 0, top: 0 };
    Some((none, next))
}

// What stands between the key and the line's end: a number, a list, two lists; more numbers: module numbers.
pub fn one_number(s: &[u8], at: usize, digits: Digits) -> Option<(u32, usize)>
    ensures { Reads s.now (number_says result) (one_form (most digits) (drop at s.now)) }
{
    number_then(s, at, b'\n', digits)
}

fn one_list(s: &[u8], at: usize, digits: Digits) -> Option<(Listed, usize)>
    ensures { Reads s.now (list_says result) (list_form (most digits) (drop at s.now)) }
{
    list_then(s, at, b'\n', digits)
}

pub fn two_lists(s: &[u8], at: usize, digits: Digits) -> Option<(Listed, Listed, usize)>
    ensures { Reads s.now (lists_says result) (lists_form (most digits) (drop at s.now)) }
{
    let (first, i) = list_then(s, at, b',', digits)?;
    let (second, next) = one_list(s, i, digits)?;
    Some((first, second, next))
}

// A line of a key and a number, a list. Where a verb follows the key, past_key tells it, and the rest is read from there.
pub fn number_line(s: &[u8], key: &[u8], digits: Digits) -> Option<(u32, usize)>
    ensures { Reads s.now (number_says result) (keyed key.now (one_form (most digits)) s.now) }
{
    let i = past_key(s, 0, key)?;
    one_number(s, i, digits)
}

pub fn list_line(s: &[u8], key: &[u8], digits: Digits) -> Option<(Listed, usize)>
    ensures { Reads s.now (list_says result) (keyed key.now (list_form (most digits)) s.now) }
{
    let i = past_key(s, 0, key)?;
    one_list(s, i, digits)
}
