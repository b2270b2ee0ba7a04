// The pass list of a register: called as `passlist told PASS`, as bin/passlist calls it, it reads the register from standard input and prints what passlist_lib
// says of each line, `candidate=` and the name of each row that stands as passed, then how many rows stand so, below the pass line, unfinished, refused, at
// fault and absent, and how many there are. What is no register and a pass line of the wrong kind are said, and told on descriptor 3 as refused; the script
// then shows nothing.
#![tactic(auto)]

use passlist_lib::{count_line, write_line};
use passlist_spec::{Pass, Wrong};
use program_input::{Left, Part, Went, argument, at_most, no_parts_yet, print};
use std::io::Read;
use write_items::write_byte;

const STDERR_FILENO: i32 = 2;

// A row with a name of 255 bytes has a seventh of this.
const LONGEST: usize = 8192;

fn take_line(pass: Pass, row: &[u8], line: &mut [u8], counts: &mut [usize; 9]) -> bool {
    let used = write_line(line, 0, pass, counts, row);
    count_line(pass, counts, row);
    print(line, used)
}

// So many bytes, and the line's end where it was there.
fn ended(row: &mut [u8], part: Part) -> usize {
    if part.whole {
        return write_byte(row, part.size, b'\n');
    }
    part.size
}

fn take_part(
    pass: Pass,
    row: &mut [u8],
    part: Part,
    line: &mut [u8],
    counts: &mut [usize; 9],
) -> bool {
    let used = ended(row, part);
    let n = at_most(used, row);
    take_line(pass, &row[..n], line, counts)
}

fn take_parts<R: Read>(
    input: &mut R,
    pass: Pass,
    row: &mut [u8],
    bytes: &mut [u8],
    line: &mut [u8],
    counts: &mut [usize; 9],
) -> Went {
    let mut parts = no_parts_yet();
    let mut written = true;
    // A loop that is proved ends, so it counts its turns.
    for _ in 0..u64::MAX {
        let Some(part) = parts.next_part(input, bytes, row, b'\n') else {
            break;
        };
        written = take_part(pass, row, part, line, counts);
        if !written {
            break;
        }
    }
    Went {
        unread: parts.left == Left::Unread,
        written,
    }
}

fn say_kind(pass: Pass) {
    match pass {
        Pass::AtLeast(_) => io::write_all(
            STDERR_FILENO,
            b"passlist: the paper has no times: PASS must be -\n",
        ),
        Pass::NoTimes => io::write_all(
            STDERR_FILENO,
            b"passlist: the paper has times: PASS must be a mark\n",
        ),
    };
}

fn say_wrong(pass: Pass, wrong: Wrong) {
    match wrong {
        Wrong::Register => {
            io::write_all(
                STDERR_FILENO,
                b"passlist: the register has no head, or a line that is no row\n",
            );
        }
        Wrong::Kind => say_kind(pass),
    }
}

fn list<R: Read>(input: &mut R, pass: Pass, row: &mut [u8], bytes: &mut [u8]) {
    let mut line = [0u8; LONGEST];
    let mut counts = [0usize; 9];
    let went = take_parts(input, pass, row, bytes, &mut line, &mut counts);
    let wrong = passlist_lib::wrong_in(&counts);
    if let Some(why) = wrong {
        say_wrong(pass, why);
    }
    let used = passlist_lib::write_counts(&mut line, 0, &counts);
    if went.written && print(&line, used) {
        program_io::tell_of(went.unread, wrong.is_some());
    }
}

fn main(rt: HostRuntime) {
    let mut word = [0u8; 16];
    let size = argument(&rt, 2, &mut word);
    let used = write_byte(&mut word, size, b'\n');
    let n = at_most(used, &word);
    let Some(pass) = passlist_lib::read_pass(&word[..n]) else {
        io::write_all(
            STDERR_FILENO,
            b"passlist: PASS is 0 to 1000, or - for a paper without times\n",
        );
        program_io::tell_of(false, true);
        return;
    };
    let mut row = [0u8; LONGEST];
    let mut bytes = [0u8; 65536];
    let mut input = rt.stdin();
    list(&mut input, pass, &mut row, &mut bytes);
}
