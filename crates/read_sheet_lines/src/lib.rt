// The kinds of lines that only a sheet has, each read from the part of the text that starts with it, and held to its limits.
// Promised: each answers what its definition in crate reading replies to that part: the values and the bytes used, or 01's number.
#![tactic(auto)]

ghost use Rattle.std.specs.Prelude.{◌≡◌, drop};
ghost use Rattle.read_items.specs.Reads.{Reads};
ghost use Rattle.read_lines.specs.Counts.{line_says};
ghost use Rattle.read_spec.specs.Kinds.{initial_line, do_push_in, do_wait_in, do_line};
ghost use Rattle.read_sheet_lines.specs.declared.Rows.TheVariants.{Transitions, Behaviors, Ports};
ghost use Rattle.read_sheet_lines.specs.Says.{row_says, instruction_says, do_numbers};
ghost use Rattle.read_sheet_lines.specs.Rows.{port_after, row_line};

use item_spec::Refusal;
use read_items::Digits;
use read_items::numbers::Limits;

// The rows that a type has.
#[derive(Clone, Copy)]
pub enum Rows {
    Transitions,
    Behaviors,
    Ports,
}

// The numbers that the line of a row has, and 0 for those that it has not: a transition its ends, a behavior its transitions,
// a port 1 for use and 0 for provide, and its group.
#[derive(Clone, Copy)]
pub struct Row {
    pub source: u32,
    pub destination: u32,
    pub uses: u32,
    pub places: u32,
    pub transitions: u32,
}

// What the rows of a type are held to: how many places it has, which are initial, and how many transitions it has.
#[derive(Clone, Copy)]
pub struct Known {
    pub places: u32,
    pub initial: u32,
    pub transitions: u32,
}

// The numbers that a `do` line has, and 0 for those that it has not.
#[derive(Clone, Copy)]
pub struct Do {
    pub verb: u32,
    pub id: u32,
    pub number: u32,
    pub provider: u32,
    pub provideport: u32,
}

// `initial=` list, in a type of so many places.
pub fn initial_line(s: &[u8], places: u32) -> Result<(u32, usize), Refusal>
    ensures { Reads s.now (line_says result) (initial_line places s.now) }
{
    let Some((list, used)) = read_items::list_line(s, b"initial=", Digits::Five) else {
        return Err(Refusal::BadForm);
    };
    let beyond = places < list.top;
    if beyond {
        return Err(Refusal::BeyondLimit);
    }
    let empty = list.top == 0;
    if empty {
        return Err(Refusal::BadClause);
    }
    Ok((list.mask, used))
}

// `tran=source,destination`, in a type of which so much is known.
fn tran_line(s: &[u8], known: Known) -> Result<(Row, usize), Refusal>
    ensures { Reads s.now (row_says result) (row_line Transitions known s.now) }
{
    let Some(i) = read_items::past_key(s, 0, b"tran=") else {
        return Err(Refusal::BadForm);
    };
    let limits = Limits::Two(known.places, known.places);
    let (n, used) = read_items::numbers::numbers_within(s, i, Digits::Five, limits)?;
    if n.first == n.second {
        return Err(Refusal::BadClause);
    }
    let row = Row {
        source: n.first,
        destination: n.second,
        uses: 0,
        places: 0,
        transitions: 0,
    };
    Ok((row, used))
}

// `behavior=` list of transitions.
fn behavior_line(s: &[u8], known: Known) -> Result<(Row, usize), Refusal>
    ensures { Reads s.now (row_says result) (row_line Behaviors known s.now) }
{
    let Some((list, used)) = read_items::list_line(s, b"behavior=", Digits::Five) else {
        return Err(Refusal::BadForm);
    };
    if known.transitions < list.top {
        return Err(Refusal::BeyondLimit);
    }
    let row = Row {
        source: 0,
        destination: 0,
        uses: 0,
        places: 0,
        transitions: list.mask,
    };
    Ok((row, used))
}

// What follows `port=use,` or `port=provide,`. A provide port may have initial places: it is held to none of them.
fn port_after(
    s: &[u8],
    at: usize,
    uses: u32,
    known: Known,
    initial: u32,
) -> Result<(Row, usize), Refusal>
    ensures { Reads s.now (row_says result) (port_after uses known.places known.transitions initial (drop at s.now)) }
{
    let Some((places, transitions, used)) = read_items::two_lists(s, at, Digits::Five) else {
        return Err(Refusal::BadForm);
    };
    if (places.top <= known.places) & (transitions.top <= known.transitions) {
        if sets::overlaps(initial, places.mask) {
            return Err(Refusal::BadClause);
        }
        let row = Row {
            source: 0,
            destination: 0,
            uses,
            places: places.mask,
            transitions: transitions.mask,
        };
        return Ok((row, used));
    }
    Err(Refusal::BeyondLimit)
}

// `port=`
fn port_line(s: &[u8], known: Known) -> Result<(Row, usize), Refusal>
    ensures { Reads s.now (row_says result) (row_line Ports known s.now) }
{
    if let Some(i) = read_items::past_key(s, 0, b"port=use,") {
        return port_after(s, i, 1, known, known.initial);
    }
    if let Some(i) = read_items::past_key(s, 0, b"port=provide,") {
        return port_after(s, i, 0, known, 0);
    }
    Err(Refusal::BadForm)
}

// The line of a row, in a type of which so much is known.
pub fn row_line(s: &[u8], rows: Rows, known: Known) -> Result<(Row, usize), Refusal>
    ensures { Reads s.now (row_says result) (row_line rows known s.now) }
{
    match rows {
        Rows::Transitions => tran_line(s, known),
        Rows::Behaviors => behavior_line(s, known),
        Rows::Ports => port_line(s, known),
    }
}

// What follows the verb of a `do` line.
fn do_numbers(s: &[u8], at: usize, verb: u32, limits: Limits) -> Result<(Do, usize), Refusal>
    ensures { Reads s.now (instruction_says result) (do_numbers verb limits (drop at s.now)) }
{
    let (n, used) = read_items::numbers::numbers_within(s, at, Digits::Five, limits)?;
    let line = Do {
        verb,
        id: n.first,
        number: n.second,
        provider: n.third,
        provideport: n.fourth,
    };
    Ok((line, used))
}

// What follows `pushb,` in a sheet that opens with this number: in one with tickets each push has one.
fn push_after(s: &[u8], at: usize, edition: u32) -> Result<(Do, usize), Refusal>
    ensures { Reads s.now (instruction_says result) (do_push_in edition (drop at s.now)) }
{
    if edition == 2 {
        return do_numbers(s, at, 6, Limits::Three(32, 8, 256));
    }
    do_numbers(s, at, 2, Limits::Two(32, 8))
}

// What follows `wait,`: where a ticket may stand, an id alone, or an id and a ticket.
fn wait_after(s: &[u8], at: usize, edition: u32) -> Result<(Do, usize), Refusal>
    ensures { Reads s.now (instruction_says result) (do_wait_in edition (drop at s.now)) }
{
    let alone = do_numbers(s, at, 5, Limits::One(32));
    if edition != 2 {
        return alone;
    }
    let Err(Refusal::BadForm) = alone else {
        return alone;
    };
    do_numbers(s, at, 7, Limits::Two(32, 256))
}

// `do=`, in a sheet of so many types that opens with this number.
pub fn do_line(s: &[u8], edition: u32, types: u32) -> Result<(Do, usize), Refusal>
    ensures { Reads s.now (instruction_says result) (do_line edition types s.now) }
{
    if let Some(i) = read_items::past_key(s, 0, b"do=add,") {
        return do_numbers(s, i, 0, Limits::Two(32, types));
    }
    if let Some(i) = read_items::past_key(s, 0, b"do=del,") {
        return do_numbers(s, i, 1, Limits::One(32));
    }
    if let Some(i) = read_items::past_key(s, 0, b"do=pushb,") {
        return push_after(s, i, edition);
    }
    if let Some(i) = read_items::past_key(s, 0, b"do=con,") {
        return do_numbers(s, i, 3, Limits::Four(32, 16, 32, 16));
    }
    if let Some(i) = read_items::past_key(s, 0, b"do=dcon,") {
        return do_numbers(s, i, 4, Limits::Four(32, 16, 32, 16));
    }
    if let Some(i) = read_items::past_key(s, 0, b"do=wait,") {
        return wait_after(s, i, edition);
    }
    Err(Refusal::BadForm)
}
