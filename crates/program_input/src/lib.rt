// What a program is given: parts of standard input (names), its arguments, a paper's texts and its answers' names. And what it says of a name or of a paper on
// standard error.
// Promised of standard input, of the arguments and of a paper's texts: a count within the lent buffer, and no more, since what they hold no contract can say.
// Of a path: where its last part begins.
#![tactic(auto)]

mod names;

ghost use Rattle.std.specs.Prelude.{◌≤◌, ◌≡◌, length, drop, IfSome, replicate};
ghost use Rattle.io.specs.Counts.{IsPrefixLen};
ghost use Rattle.program_input.specs.Last.{last_part};

use judge_spec::Paper;
use model::Text;
pub use names::{
    Left, Listed, Part, Parts, TakeName, Went, at_most, no_parts_yet, read_listed, take_names,
};
use sitting_shown::Among;
use std::env::FillError;
use std::rt::{Env, Files};
use write_items::{write_byte, write_key};

const STDOUT_FILENO: i32 = 1;

const STDERR_FILENO: i32 = 2;

// What stands between a path's parts.
const SLASH: u8 = b'/';

// A path's bytes, each shown as four at most, and the words about it.
const LONGEST: usize = 16600;

// Where a path's last part begins.
pub fn base_from(path: &[u8]) -> usize
    ensures within { result ≤ length path.now }
    ensures last { drop result path.now ≡ last_part path.now }
{
    let mut from: usize = 0;
    for (i, byte) in path.iter().enumerate() {
        if *byte == SLASH {
            from = i + 1;
        }
    }
    from
}

// Argument i; of one that is longer than any path, its first bytes, by which no file can be opened.
pub fn argument<E: Env>(rt: &E, i: usize, word: &mut [u8]) -> usize
    ensures { IsPrefixLen result word.new }
{
    match rt.arg(i, word) {
        Ok(size) => size,
        Err(FillError::TooLong) => word.len(),
        Err(FillError::NotPresent) => 0,
    }
}

// Room for a paper's texts, of a byte more than each may have, so that a longer one still gets its number.
#[derive(Drop)]
pub struct Room {
    pub sheet: [u8; 32769],
    pub start: [u8; 8193],
    pub times: [u8; 32769],
}

// A paper, and its times where there are some.
#[derive(Clone, Copy)]
pub struct Texts<'a> {
    pub paper: Paper<'a>,
    pub times: Option<&'a [u8]>,
}

pub fn empty_room() -> Room
    ensures sheet { result.sheet ≡ replicate 32769 0 }
    ensures start { result.start ≡ replicate 8193 0 }
    ensures times { result.times ≡ replicate 32769 0 }
{
    Room {
        sheet: [0; 32769],
        start: [0; 8193],
        times: [0; 32769],
    }
}

// The argument that names a text of the paper.
fn argument_of(text: Text) -> usize {
    match text {
        Text::Start => 3,
        Text::Times => 4,
        _ => 2,
    }
}

// Where an argument names a file, so many bytes of it.
fn read_given<E: Env + Files>(rt: &E, text: Text, bytes: &mut [u8]) -> Option<usize>
    ensures { IfSome result (λ n. IsPrefixLen n bytes.new) }
{
    let mut path = [0u8; 4096];
    let k = argument(rt, argument_of(text), &mut path);
    program_io::read_start(rt, &path[..k], bytes)
}

// The texts that the arguments name; a sheet that can't be read counts as empty.
pub fn read_texts<'a, E: Env + Files>(rt: &E, room: &'a mut Room) -> Texts<'a>
    ensures sheet { length result.paper.sheet.now ≤ 32769 }
    ensures start { IfSome result.paper.start (λ s. length s.now ≤ 8193) }
    ensures times { IfSome result.times (λ s. length s.now ≤ 32769) }
{
    let mut path = [0u8; 4096];
    let k = argument(rt, argument_of(Text::Sheet), &mut path);
    let n = program_io::read_named(rt, &path[..k], &mut room.sheet).unwrap_or(0);
    let start = read_given(rt, Text::Start, &mut room.start);
    let times = read_given(rt, Text::Times, &mut room.times);
    let paper = Paper {
        sheet: &room.sheet[..n],
        start: start.and_then(|k| room.start.get(..k)),
    };
    Texts {
        paper,
        times: times.and_then(|k| room.times.get(..k)),
    }
}

// So many of the bytes on standard output: whether all were written.
pub fn print(block: &[u8], used: usize) -> bool {
    let n = at_most(used, block);
    io::write_all(STDOUT_FILENO, &block[..n])
}

fn say(line: &[u8], used: usize) {
    let n = at_most(used, line);
    io::write_all(STDERR_FILENO, &line[..n]);
}

// `WHO: unreadable: NAME`, the name as a table shows it.
pub fn say_unreadable(who: &[u8], name: &[u8]) {
    let mut line = [0u8; LONGEST];
    let a = write_key(&mut line, 0, who);
    let b = write_key(&mut line, a, b": unreadable: ");
    let c = sitting_shown::show_cell(&mut line, b, name);
    let used = write_byte(&mut line, c, b'\n');
    say(&line, used);
}

// `WHO: FILE:LINE: refused=N: ..`: the paper is at fault.
pub fn say_paper(who: &[u8], file: &[u8], at: usize, refused: u8) {
    let mut line = [0u8; LONGEST];
    let a = write_key(&mut line, 0, who);
    let b = write_key(&mut line, a, b": ");
    let c = sitting_shown::show(&mut line, b, Among::Line, file);
    let d = write_byte(&mut line, c, b':');
    let e = write_items::write_number(&mut line, d, at);
    let f = write_key(&mut line, e, b": refused=");
    let g = write_items::write_number(&mut line, f, refused as usize);
    let used = write_key(
        &mut line,
        g,
        b": the paper is at fault, and nobody is judged\n",
    );
    say(&line, used);
}

// A text of the paper is at fault: that is said of the file that its argument names, and told.
pub fn say_fault<E: Env>(rt: &E, who: &[u8], text: Text, line: usize, refused: u8) {
    let mut path = [0u8; 4096];
    let size = argument(rt, argument_of(text), &mut path);
    say_paper(who, &path[..size], line, refused);
    program_io::tell_of(false, true);
}
