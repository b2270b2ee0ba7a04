// What is shown of a candidate: bytes at a line's end, in markup, in a cell of a table, what isn't plain there as `\xNN` in lower case; and the place of a line.
// Promised: every byte of the lent buffer, by `shown`, `cell` and `place_text`. What is shown is always printable, nothing of it means more where it stands,
// and no two texts look alike (specs/Readable).
// Beside it stands how the programs that show many texts read each of them.
#![tactic(auto)]

ghost use Rattle.std.specs.Prelude.{◌≡◌, ◌++◌, ◌<◌, min, length};
ghost use Rattle.write_items.specs.Written.{Written};
ghost use Rattle.sitting_shown.specs.Shown.{plain, quote, markup, separator, formula, more, itself, hex_digit, shown_byte, shown, cell};
ghost use Rattle.io.specs.Counts.{IsPrefixLen};
ghost use Rattle.sitting_shown.specs.Place.{which_text, place_text};

use judge_spec::Place;
use model::Text;
use std::rt::Files;

const STDOUT_FILENO: i32 = 1;

// Where a candidate's bytes are shown: alone at a line's end, within markup, or in a cell of a table, as its first byte or a later one.
#[derive(Clone, Copy)]
pub enum Among {
    Line,
    Markup,
    Head,
    Cell,
}

// From the exclamation mark to the tilde, the backslash aside.
#[tactic(auto, unfolding(crate::specs::Shown::plain))]
fn is_plain(b: u8) -> bool
    ensures { result ≡ plain b }
{
    matches!(b, b'!'..=b'~') && b != b'\\'
}

#[tactic(auto, unfolding(crate::specs::Shown::quote))]
fn is_quote(b: u8) -> bool
    ensures { result ≡ quote b }
{
    matches!(b, b'"' | b'\'')
}

// A byte that a browser may take for more than itself.
#[tactic(auto, unfolding(crate::specs::Shown::markup))]
fn is_markup(b: u8) -> bool
    ensures { result ≡ markup b }
{
    matches!(b, b'&' | b'<' | b'>') || is_quote(b)
}

#[tactic(auto, unfolding(crate::specs::Shown::separator))]
fn is_separator(b: u8) -> bool
    ensures { result ≡ separator b }
{
    matches!(b, b',' | b';') || is_markup(b)
}

// A byte with which a cell begins that a spreadsheet would work out.
#[tactic(auto, unfolding(crate::specs::Shown::formula))]
fn is_formula(b: u8) -> bool
    ensures { result ≡ formula b }
{
    matches!(b, b'=' | b'+' | b'-' | b'@') || is_separator(b)
}

#[tactic(auto, unfolding(crate::specs::Shown::more))]
fn means_more(among: Among, b: u8) -> bool
    ensures { result ≡ more among b }
{
    match among {
        Among::Line => false,
        Among::Markup => is_markup(b),
        Among::Head => is_formula(b),
        Among::Cell => is_separator(b),
    }
}

// A byte that stands for itself there.
#[tactic(auto, unfolding(crate::specs::Shown::itself))]
fn stands(among: Among, b: u8) -> bool
    ensures { result ≡ itself among b }
{
    is_plain(b) && !means_more(among, b)
}

#[tactic(auto, unfolding(crate::specs::Shown::hex_digit))]
fn hex_digit(d: u8) -> u8
    requires { d < 16 }
    ensures { result ≡ hex_digit d }
{
    if d < 10 { b'0' + d } else { b'a' + (d - 10) }
}

fn show_byte(t: &mut [u8], at: usize, among: Among, b: u8) -> usize
    ensures { Written t.old (shown_byte among b) t.new at result }
{
    if stands(among, b) {
        return write_items::write_byte(t, at, b);
    }
    let p = write_items::write_key(t, at, b"\\x");
    let q = write_items::write_byte(t, p, hex_digit(b / 16 % 16));
    write_items::write_byte(t, q, hex_digit(b % 16))
}

// A candidate's bytes, at a position of a lent buffer; what has no room is cut.
pub fn show(t: &mut [u8], at: usize, among: Among, text: &[u8]) -> usize
    ensures { Written t.old (shown among text.now) t.new at result }
{
    let mut p = at;
    for b in text {
        p = show_byte(t, p, among, *b);
    }
    p
}

// A name as a cell of a table, which no spreadsheet works out.
pub fn show_cell(t: &mut [u8], at: usize, text: &[u8]) -> usize
    ensures { Written t.old (cell text.now) t.new at result }
{
    if text.len() == 0 {
        return at;
    }
    let p = show_byte(t, at, Among::Head, text[0]);
    show(t, p, Among::Cell, &text[1..])
}

// As outcome_lib's write_outcome, of another enum.
fn write_which(t: &mut [u8], at: usize, text: Text) -> usize
    ensures { Written t.old (which_text text) t.new at result }
{
    match text {
        Text::Sheet => write_items::write_key(t, at, b"sheet"),
        Text::Answer => write_items::write_key(t, at, b"answer"),
        Text::Times => write_items::write_key(t, at, b"times"),
        Text::Start => write_items::write_key(t, at, b"start"),
        Text::Neither => write_items::write_key(t, at, b"-"),
    }
}

// `place=TEXT,START,SIZE` and its LF.
pub fn write_place(t: &mut [u8], at: usize, place: Place) -> usize
    ensures { Written t.old (place_text place) t.new at result }
{
    let text = place.text;
    let a = write_items::write_key(t, at, b"place=");
    let b = write_which(t, a, text);
    let c = write_items::write_byte(t, b, b',');
    let d = write_items::write_number(t, c, place.start);
    let e = write_items::write_byte(t, d, b',');
    let f = write_items::write_number(t, e, place.size);
    write_items::write_byte(t, f, b'\n')
}

// The same alone, which 32 bytes have room for.
pub fn show_place(place: Place, out: &mut [u8; 32]) -> usize
    ensures written { Written out.old (place_text place) out.new 0 result }
    ensures counts { IsPrefixLen result out.new }
{
    write_place(out, 0, place)
}

// NAME and what its file's name ends in, cut where the path has no room.
pub fn path_of(path: &mut [u8], name: &[u8], ending: &[u8]) -> usize
    ensures written { Written path.old (name.now ++ ending.now) path.new 0 result }
    ensures counts { IsPrefixLen result path.new }
{
    let at = write_items::write_key(path, 0, name);
    write_items::write_key(path, at, ending)
}

// What stands in the file of a text; one that can't be opened has no bytes, and neither has what comes after a read that fails.
pub fn read_named<R: Files>(rt: &R, name: &[u8], ending: &[u8], text: &mut [u8]) -> usize
    ensures { IsPrefixLen result text.new }
{
    let mut path = [0u8; 80];
    let size = path_of(&mut path, name, ending);
    program_io::read_as_far(rt, &path[..size], text)
}

// The place on standard output, and how many bytes that took.
pub fn print_place(place: Place) -> usize
    ensures { result ≡ min 32 (length (place_text place)) }
{
    let mut line = [0u8; 32];
    let used = show_place(place, &mut line);
    io::write_all(STDOUT_FILENO, &line[..used]);
    used
}
