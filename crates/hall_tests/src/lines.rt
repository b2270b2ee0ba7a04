// A case's line, byte by byte: its name, then places and values.
ghost use Rattle.std.specs.Prelude.{◌<◌};

use super::lent::BYTES;

// Where the next byte stands; after the last one the line is done, bad, or there is none left.
#[derive(Clone, Copy)]
pub enum Part {
    Name,
    Place,
    Value,
    Done,
    Bad,
    Ended,
}

// The bytes of the name so far, the place, whether a number is begun, and the number.
#[derive(Clone, Copy)]
pub struct Line {
    pub part: Part,
    pub size: usize,
    pub place: usize,
    pub begun: bool,
    pub number: usize,
}

pub(crate) fn fresh() -> Line {
    Line {
        part: Part::Name,
        size: 0,
        place: 0,
        begun: false,
        number: 0,
    }
}

fn at_part(line: Line, part: Part, place: usize) -> Line {
    Line {
        part: part,
        size: line.size,
        place: place,
        begun: false,
        number: 0,
    }
}

fn bad(line: Line) -> Line {
    at_part(line, Part::Bad, 0)
}

fn is_name(b: u8) -> bool {
    match b {
        b'a'..=b'z' => true,
        b'A'..=b'Z' => true,
        b'0'..=b'9' => true,
        b'_' => true,
        _ => false,
    }
}

fn value_of(b: u8) -> usize
    ensures { result < 256 }
{
    let v = model::wide(b);
    if v < 48 { 0 } else { v - 48 }
}

// A digit more; a number past every place is bad.
fn digit(line: Line, b: u8) -> Line {
    let part = line.part;
    let number = line.number;
    if (b < b'0') | (b'9' < b) {
        return bad(line);
    }
    if BYTES <= number {
        return bad(line);
    }
    Line {
        part: part,
        size: line.size,
        place: line.place,
        begun: true,
        number: number * 10 + value_of(b),
    }
}

fn in_name(line: Line, b: u8, name: &mut [u8; 64]) -> Line {
    let size = line.size;
    if (b == b' ') & (0 < size) {
        return at_part(line, Part::Place, 0);
    }
    if (b == b'\n') & (0 < size) {
        return at_part(line, Part::Done, 0);
    }
    if !is_name(b) {
        return bad(line);
    }
    if 64 <= size {
        return bad(line);
    }
    name[size] = b;
    Line {
        part: Part::Name,
        size: size + 1,
        place: 0,
        begun: false,
        number: 0,
    }
}

fn in_place(line: Line, b: u8) -> Line {
    if b != b'=' {
        return digit(line, b);
    }
    if !line.begun | (BYTES <= line.number) {
        return bad(line);
    }
    at_part(line, Part::Value, line.number)
}

fn in_value(line: Line, b: u8, bytes: &mut [u8; BYTES]) -> Line {
    if (b != b' ') & (b != b'\n') {
        return digit(line, b);
    }
    let place = line.place;
    let number = line.number;
    if !line.begun {
        return bad(line);
    }
    if 255 < number {
        return bad(line);
    }
    if BYTES <= place {
        return bad(line);
    }
    bytes[place] = number as u8;
    if b == b' ' {
        return at_part(line, Part::Place, 0);
    }
    at_part(line, Part::Done, 0)
}

pub(crate) fn read_byte(line: Line, b: u8, name: &mut [u8; 64], bytes: &mut [u8; BYTES]) -> Line {
    let part = line.part;
    match part {
        Part::Name => in_name(line, b, name),
        Part::Place => in_place(line, b),
        Part::Value => in_value(line, b, bytes),
        _ => line,
    }
}

// The input ended: well at the start of a line, badly within one.
pub(crate) fn ended(line: Line) -> Line {
    let part = line.part;
    match part {
        Part::Name => {
            if line.size == 0 {
                at_part(line, Part::Ended, 0)
            } else {
                bad(line)
            }
        }
        _ => bad(line),
    }
}

pub(crate) fn is_over(line: Line) -> bool {
    let part = line.part;
    match part {
        Part::Bad => true,
        Part::Ended => true,
        _ => false,
    }
}
