// What the programs read, with the reads that failed, and what they tell the script that called them.
// Promised: a count within the lent buffer, and no more. What a file holds and whether a call succeeds no contract can say.
#![tactic(auto)]

ghost use Rattle.std.specs.Prelude.{◌≤◌, length, IfOk, IfSome};
ghost use Rattle.io.specs.Counts.{IsPrefixLen};

use std::env::FillError;
use std::fs::File;
use std::io::{Error, ErrorKind, Write};
use std::rt::{Env, Files};
use std::str::from_utf8;

const STDOUT_FILENO: i32 = 1;

const STDERR_FILENO: i32 = 2;

// The descriptor on which a script hears how a program ended, since a program has no exit status.
const HEARD: i32 = 3;

// Room for what the system says of an error, and its number.
const SAID: usize = 256;

// One read: how many bytes it gave, or none where it failed.
pub fn read_some<R: std::io::Read>(file: &mut R, free: &mut [u8]) -> Option<usize>
    ensures { IfSome result (λ n. IsPrefixLen n free.new) }
{
    file.read(free).ok()
}

// What a file holds, up to the buffer's length. One read that fails, as the first of a folder does, makes it unreadable.
pub fn read_text<R: std::io::Read>(file: &mut R, text: &mut [u8]) -> std::io::Result<usize>
    ensures { IfOk result (λ n. IsPrefixLen n text.new) }
{
    let mut size: usize = 0;
    // Bytes are counted, and no index: std's `read_exact` wants as many as there is room, and its `read_to_end` memory that grows.
    while size < text.len() {
        let more = file.read(&mut text[size..])?;
        if more == 0 {
            break;
        }
        size += more;
    }
    Ok(size)
}

// A name is text for the system that opens it, so bytes that are none name no file.
fn open_named<R: Files>(rt: &R, name: &[u8]) -> std::io::Result<R::File> {
    match from_utf8(name) {
        Ok(path) => File::open(rt, path),
        Err(_) => Err(Error::from(ErrorKind::InvalidInput)),
    }
}

// What a named file holds.
pub fn read_named<R: Files>(rt: &R, name: &[u8], text: &mut [u8]) -> std::io::Result<usize>
    ensures { IfOk result (λ n. IsPrefixLen n text.new) }
{
    let mut file = open_named(rt, name)?;
    read_text(&mut file, text)
}

// As many bytes of a named file as come before its end or before a read that fails: a file that can't be opened has none.
pub fn read_as_far<R: Files>(rt: &R, name: &[u8], text: &mut [u8]) -> usize
    ensures { IsPrefixLen result text.new }
{
    match open_named(rt, name) {
        Ok(mut file) => read_until_failed(&mut file, text),
        Err(_) => 0,
    }
}

fn read_until_failed<R: std::io::Read>(file: &mut R, text: &mut [u8]) -> usize
    ensures { IsPrefixLen result text.new }
{
    let mut size: usize = 0;
    // As in `read_text`, but for what a read that fails leaves.
    while size < text.len() {
        let more = read_some(file, &mut text[size..]).unwrap_or(0);
        if more == 0 {
            break;
        }
        size += more;
    }
    size
}

// How many bytes a start has, or none where there is no start. "no file: nothing up": one that can't be opened or read counts as empty.
pub fn read_start<R: Files>(rt: &R, name: &[u8], text: &mut [u8]) -> Option<usize>
    ensures { IfSome result (λ n. IsPrefixLen n text.new) }
{
    match open_named(rt, name) {
        Ok(mut file) => Some(read_text(&mut file, text).unwrap_or(0)),
        Err(error) if error.kind() == ErrorKind::NotFound => None,
        Err(_) => Some(0),
    }
}

// Where the number begins that std adds to what the system says: ` (os error N)`.
fn said_by_system(said: &[u8]) -> usize
    ensures { IsPrefixLen result said.now }
{
    match said.iter().rposition(|byte| *byte == b'(') {
        Some(i) if 0 < i => i - 1,
        _ => said.len(),
    }
}

// A line on standard error: what failed, a colon and what the system says of it.
pub fn say_failed(what: &[u8], error: Error) {
    let mut said = [0u8; SAID];
    let mut left: &mut [u8] = &mut said;
    let _ = write!(left, "{error}");
    let used = SAID.saturating_sub(left.len());
    let size = said_by_system(&said[..used]);
    io::write_all(STDERR_FILENO, what);
    io::write_all(STDERR_FILENO, b": ");
    io::write_all(STDERR_FILENO, &said[..size]);
    io::write_all(STDERR_FILENO, b"\n");
}

// The size of the answer, from standard input; where it could not be read, `unread` says so on standard error, and there is none.
pub fn read_answer<R: std::io::Read>(
    input: &mut R,
    answer: &mut [u8],
    unread: &[u8],
) -> Option<usize>
    ensures { IfSome result (λ n. IsPrefixLen n answer.new) }
{
    match read_text(input, answer) {
        Ok(size) => Some(size),
        Err(error) => {
            say_failed(unread, error);
            None
        }
    }
}

// Whether there is an argument i; the program's own name is the first, by number 0.
pub fn has_argument<E: Env>(rt: &E, i: usize) -> bool {
    !matches!(rt.arg(i, &mut []), Err(FillError::NotPresent))
}

// How many arguments the program was started with, its own name among them.
pub fn argument_count<E: Env>(rt: &E) -> usize {
    (0..usize::MAX)
        .find(|i| !has_argument(rt, *i))
        .unwrap_or(usize::MAX)
}

// The size of argument i, which then stands in the lent bytes: 0 where there is none, or where it is longer than they are.
pub fn read_argument<E: Env>(rt: &E, i: usize, word: &mut [u8]) -> usize
    ensures { IsPrefixLen result word.new }
{
    rt.arg(i, word).unwrap_or(0)
}

// What the script ends with: 0, 3 where something could not be read, or 4 where what was read is refused. A program that could not write all of its report
// tells nothing.
pub fn tell_of(unread: bool, refused: bool) {
    let told = if unread {
        b"3"
    } else if refused {
        b"4"
    } else {
        b"0"
    };
    io::write_all(HEARD, told);
}

// The same, where a script hears: it has called the program with an argument.
pub fn tell<E: Env>(rt: &E, unread: bool, refused: bool) {
    if has_argument(rt, 1) {
        tell_of(unread, refused);
    }
}

// What a program prints, and then that all of it was written: its report says what is refused.
pub fn finish<E: Env>(rt: &E, out: &[u8], unread: bool) {
    if io::write_all(STDOUT_FILENO, out) {
        tell(rt, unread, false);
    }
}

// A key and a number, on standard output or on standard error.
pub fn show_number(to: i32, key: &[u8], n: usize) {
    io::write_all(to, key);
    io::print_decimal(to, n as u64);
}

// The same as a line.
pub fn show_count(to: i32, key: &[u8], n: usize) {
    show_number(to, key, n);
    io::write_all(to, b"\n");
}

// On standard error: the text that is refused, the line at fault, and the number.
pub fn say_fault(text: &[u8], line: usize, refused: u8) {
    io::write_all(STDERR_FILENO, text);
    show_count(STDERR_FILENO, b"line=", line);
    show_count(STDERR_FILENO, b"refused=", refused as usize);
}
