// Standard input and output by buffers: what is still to be read, and what is still to be written.
// Promised: what is to be read lies within the input's buffer.
ghost use Rattle.std.specs.Prelude.{◌≤◌, length};
ghost use Rattle.io.specs.Counts.{IsPrefixLen};
ghost use Rattle.compare_batch.specs.Within.{Inside};

use std::io::Read;

const STDOUT_FILENO: i32 = 1;

// Past this place of the output a line and the widest report might lack room.
const ENOUGH: usize = 49000;

// The bytes of the input from `at` to `to` are still to be read, and the first `used` of the output still to be written.
// `ended` is 1 once no case follows, else 0: as wide as the rest, so that no padding is copied for each case.
#[derive(Clone, Copy)]
pub(crate) struct Flow {
    pub at: usize,
    pub to: usize,
    pub used: usize,
    pub ended: usize,
}

// The bytes from `at` to `to` move to the start.
fn move_down(input: &mut [u8], at: usize, to: usize)
    requires { (at ≤ to) × (to ≤ length input.old) }
{
    input.copy_within(at..to, 0);
}

pub(crate) fn flush(out: &[u8], used: usize) {
    if used <= out.len() {
        io::write_all(STDOUT_FILENO, &out[..used]);
    }
}

// A read that fails gives nothing.
fn read_some<R: Read>(from: &mut R, free: &mut [u8]) -> usize
    ensures { IsPrefixLen result free.new }
{
    match from.read(free) {
        Ok(size) => size,
        Err(_) => 0,
    }
}

// One read, after what stands in the output is written: whoever feeds the input may wait for it.
fn refill<R: Read>(from: &mut R, input: &mut [u8], out: &[u8], flow: Flow) -> Flow
    requires { Inside flow input.old }
    ensures { Inside result input.new }
{
    flush(out, flow.used);
    let at = flow.at;
    let to = flow.to;
    move_down(input, at, to);
    let kept = to - at;
    let more = read_some(from, &mut input[kept..]);
    Flow {
        at: 0,
        to: kept + more,
        used: 0,
        ended: 0,
    }
}

// At least `need` unread bytes, or all that are left where the input ends before that.
pub(crate) fn gather<R: Read>(
    from: &mut R,
    input: &mut [u8],
    out: &[u8],
    flow: Flow,
    need: usize,
) -> Flow
    requires { Inside flow input.old }
    ensures { Inside result input.new }
{
    let mut unread = flow;
    while unread.to - unread.at < need {
        let next = refill(from, input, out, unread);
        if next.to - next.at <= unread.to - unread.at {
            return next;
        }
        unread = next;
    }
    unread
}

// The place in the output from which a line and a report have room.
pub(crate) fn place_for(out: &[u8], used: usize) -> usize {
    if used <= ENOUGH {
        return used;
    }
    flush(out, used);
    0
}
