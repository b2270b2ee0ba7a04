// The start: "the report's lines from `instances=` on, after a line `start=1`", each instance's with its last ticket where the sheet has tickets.
ghost use Rattle.std.specs.Prelude.{◌≡◌, ◌++◌, get_or};
ghost use Rattle.item_spec.specs.Reader.{bytes};
ghost use Rattle.item_spec.specs.Write.{only_if, in_turn};
ghost use Rattle.model.specs.View.{instance, queue_of};
ghost use Rattle.read_spec.specs.Limits.{has_tickets};
ghost use Rattle.start_spec.specs.Round.{last_text, row_text, row_at, start_text};
ghost use Rattle.write_items.specs.Written.{Written};
ghost use Rattle.words.specs.Words.{state_in};
ghost use Rattle.write_report.specs.Lines.{rows_part};

use crate::{tally, write_connections, write_count, write_fields};
use model::at_or;
use words::StateWords;
use words::state::present;
use write_items::{write_byte, write_key, write_number};

// "the last ticket pushed to each instance, `-` for none", by its stamp, in a sheet that opens with this number.
fn write_last(t: &mut [u8], at: usize, first: u32, stamp: usize) -> usize
    ensures { Written t.old (only_if (has_tickets first) (bytes "," ++ last_text stamp)) t.new at result }
{
    if first != 2 {
        return at;
    }
    let p = write_byte(t, at, b',');
    if stamp == 0 {
        return write_byte(t, p, b'-');
    }
    write_number(t, p, stamp - 1)
}

// The line of an instance with this stamp.
fn write_row(t: &mut [u8], first: u32, stamp: usize, state: &StateWords, i: u32) -> usize
    ensures { Written t.old
        (row_text first i (instance (state_in state.now) i) (queue_of (state_in state.now) i) stamp) t.new 0 result }
{
    let mut at = write_fields(t, state, i);
    at = write_last(t, at, first, stamp);
    write_byte(t, at, b'\n')
}

// Nothing where it is absent.
fn write_row_at(t: &mut [u8], first: u32, lasts: &[usize], state: &StateWords, i: u32) -> usize
    ensures { Written t.old (row_at first lasts.now (state_in state.now) i) t.new 0 result }
{
    if present(state, i) {
        write_row(t, first, at_or(lasts, i as usize, 0), state, i)
    } else {
        0
    }
}

// The lines of the instances by id.
fn write_row_lines(t: &mut [u8], first: u32, lasts: &[usize], state: &StateWords) -> usize
    ensures { Written t.old (in_turn (row_at first lasts.now (state_in state.now)) 32) t.new 0 result }
{
    let mut used: usize = 0;
    for i in 0..32 {
        used += write_row_at(&mut t[used..], first, lasts, state, i);
    }
    used
}

// instances= and a line for each that is present
fn write_rows(t: &mut [u8], first: u32, lasts: &[usize], state: &StateWords) -> usize
    ensures { Written t.old (rows_part first lasts.now (state_in state.now)) t.new 0 result }
{
    let used = write_count(t, b"instances=", tally(state));
    used + write_row_lines(&mut t[used..], first, lasts, state)
}

// What the state is as the start of a paper whose sheet opens with this number, where these are the stamps of the last tickets: one more than each, and 0
// for none. Without tickets nobody looks at them.
pub fn write_start(t: &mut [u8], first: u32, lasts: &[usize], state: &StateWords) -> usize
    ensures { Written t.old (start_text first lasts.now (state_in state.now)) t.new 0 result }
{
    let mut used = write_key(t, 0, b"start=1\n");
    used += write_rows(&mut t[used..], first, lasts, state);
    used + write_connections(&mut t[used..], state)
}
