// The header of a case: how long its texts are, and how much room its report has.
// Promised: whatever a header says is small enough.
ghost use Rattle.compare_batch.specs.Within.{SmallIf};

use read_items::Digits;

// A text is at most LONGEST, a room at most WIDEST; a header line has at most HEADER bytes.
const LONGEST: u32 = 40000;

const WIDEST: u32 = 16384;

pub(crate) const HEADER: usize = 29;

// What a header says, and how many bytes it has itself. `plan` is whether the texts are the Aeolus paper's, `given` whether
// there is a start.
#[derive(Clone, Copy)]
pub(crate) struct Header {
    pub plan: bool,
    pub given: bool,
    pub sheet: usize,
    pub start: usize,
    pub answer: usize,
    pub room: usize,
    pub size: usize,
}

// What a header says of the paper.
#[derive(Clone, Copy)]
struct Paper {
    plan: bool,
    given: bool,
    sheet: u32,
    start: u32,
}

fn header_of(paper: Paper, answer: u32, room: u32, size: usize) -> Option<Header>
    ensures { SmallIf result }
{
    if LONGEST < paper.sheet {
        return None;
    }
    if LONGEST < paper.start {
        return None;
    }
    if LONGEST < answer {
        return None;
    }
    if WIDEST < room {
        return None;
    }
    if HEADER < size {
        return None;
    }
    Some(Header {
        plan: paper.plan,
        given: paper.given,
        sheet: paper.sheet as usize,
        start: paper.start as usize,
        answer: answer as usize,
        room: room as usize,
        size,
    })
}

pub(crate) fn read_header(s: &[u8]) -> Option<Header>
    ensures { SmallIf result }
{
    if let Some(a) = read_items::past_key(s, 0, b"case ") {
        return read_case(s, a);
    }
    if let Some(a) = read_items::past_key(s, 0, b"plan ") {
        return read_plan(s, a);
    }
    None
}

// A sheet's length, and a start's or `-` for no start.
fn read_case(s: &[u8], at: usize) -> Option<Header>
    ensures { SmallIf result }
{
    let (sheet, a) = read_items::number_then(s, at, b' ', Digits::Five)?;
    if let Some(b) = read_items::past_key(s, a, b"- ") {
        let paper = Paper {
            plan: false,
            given: false,
            sheet,
            start: 0,
        };
        return read_rest(s, b, paper);
    }
    let (start, b) = read_items::number_then(s, a, b' ', Digits::Five)?;
    let paper = Paper {
        plan: false,
        given: true,
        sheet,
        start,
    };
    read_rest(s, b, paper)
}

fn read_plan(s: &[u8], at: usize) -> Option<Header>
    ensures { SmallIf result }
{
    let (sheet, a) = read_items::number_then(s, at, b' ', Digits::Five)?;
    let paper = Paper {
        plan: true,
        given: false,
        sheet,
        start: 0,
    };
    read_rest(s, a, paper)
}

// The answer's length and the room.
fn read_rest(s: &[u8], at: usize, paper: Paper) -> Option<Header>
    ensures { SmallIf result }
{
    let (answer, a) = read_items::number_then(s, at, b' ', Digits::Five)?;
    let (room, size) = read_items::number_then(s, a, b'\n', Digits::Five)?;
    header_of(paper, answer, room, size)
}
