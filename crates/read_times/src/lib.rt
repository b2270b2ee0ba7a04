// A text of times read whole: its three first lines, then its rows, each from the part of the text that starts with it, into two lent arrays.
// Promised: for every text `read_times` answers the one number, place and times that `times_read` gives of it; `times_number` is that number by its name.
#![tactic(auto)]

ghost use Rattle.std.specs.Prelude.{◌≡◌, ℕ, replicate, length, drop};
ghost use Rattle.read_spec.specs.Kinds.{count_line_in};
ghost use Rattle.read_spec.specs.Lines.{each, line};
ghost use Rattle.read_lines.specs.Counts.{in_range};
ghost use Rattle.read_lines.specs.Runs.{RunsTo, came, number_came};
ghost use Rattle.read_chain.specs.Chain.{shortly};
ghost use Rattle.times_spec.specs.Limits.{seven_digits};
ghost use Rattle.times_spec.specs.Refusal.{times_number};
ghost use Rattle.times_spec.specs.Text.{time, times};
ghost use Rattle.read_times.specs.Says.{filled, row_came, times_came};
ghost use Rattle.read_times.specs.Times.{times_read};

use item_spec::Refusal;
use read_items::Digits;
use read_items::numbers::{Limits, numbers_within};
use read_lines::LineFault;
use times_spec::Times;

// What a text of times says, or the number of the refusal and the place of the line at fault beside empty times.
#[derive(Drop)]
pub struct TimesRead {
    pub refused: u8,
    pub place: usize,
    pub times: Times,
}

// `time=id,transition,seconds`, put into its slots whatever the par is: the bytes that the row used. Beside a refusal nothing is said of the arrays.
fn time_line(s: &[u8], listed: &mut [u8; 1024], seconds: &mut [u32; 1024]) -> Result<usize, Refusal>
    ensures { (par j : ℕ) → RunsTo s.now (row_came result (filled par listed.new seconds.new))
        (time j (filled par listed.old seconds.old) s.now) }
{
    let Some(i) = read_items::past_key(s, 0, b"time=") else {
        return Err(Refusal::BadForm);
    };
    let (n, used) = numbers_within(s, i, Digits::Seven, Limits::Three(32, 32, 86401))?;
    let slot = (n.first * 32 + n.second) as usize;
    let twice = listed[slot] == 1;
    if twice {
        return Err(Refusal::BadClause);
    }
    listed[slot] = 1;
    seconds[slot] = n.third;
    Ok(used)
}

// So many rows, from the place start on.
fn read_rows(
    text: &[u8],
    start: usize,
    count: u32,
    listed: &mut [u8; 1024],
    seconds: &mut [u32; 1024],
) -> Result<usize, LineFault>
    ensures { (par : ℕ) → RunsTo text.now (came result (filled par listed.new seconds.new))
        (each time count 0 (filled par listed.old seconds.old) (drop start text.now)) }
{
    let mut at = read_items::place_in(text, start);
    for _row in 0..count {
        let used = read_chain::line_at(at, time_line(&text[at..], listed, seconds))?;
        at += used;
    }
    Ok(at)
}

// The line of a key and a number of at most seven digits from the least to the greatest.
fn seven_run(
    text: &[u8],
    start: usize,
    key: &[u8],
    least: u32,
    greatest: u32,
) -> Result<(u32, usize), LineFault>
    ensures { RunsTo text.now (number_came result)
        (line (count_line_in seven_digits key.now (in_range least greatest)) (drop start text.now)) }
{
    let line = read_lines::within_at(text, start, key, Digits::Seven, least, greatest);
    read_chain::number_run(text, start, line)
}

// All lines of a text of any length: the par, and the text's end.
fn read_lines(
    text: &[u8],
    listed: &mut [u8; 1024],
    seconds: &mut [u32; 1024],
) -> Result<(u32, usize), LineFault>
    requires { (listed.old ≡ replicate 1024 0) × (seconds.old ≡ replicate 1024 0) }
    ensures { RunsTo text.now (times_came result listed.new seconds.new) (shortly times text.now) }
{
    let at = read_chain::length_run(text)?;
    let at = read_chain::due_run(text, at, b"times=", 1)?;
    let (par, at) = seven_run(text, at, b"par=", 1, 1000000)?;
    let (count, at) = seven_run(text, at, b"rows=", 0, 1024)?;
    let at = read_rows(text, at, count, listed, seconds)?;
    let at = read_chain::end_run(text, at)?;
    Ok((par, at))
}

// The times of a text of any length. Nothing of what was read is handed out beside a refusal.
pub fn read_times(text: &[u8]) -> TimesRead
    ensures { result ≡ times_read text.now }
{
    let mut listed = [0u8; 1024];
    let mut seconds = [0u32; 1024];
    let read = read_lines(text, &mut listed, &mut seconds);
    match read {
        Ok((par, place)) => {
            let times = Times {
                par,
                listed,
                seconds,
            };
            TimesRead {
                refused: 0,
                place,
                times,
            }
        }
        Err(fault) => {
            let times = Times {
                par: 0,
                listed: [0; 1024],
                seconds: [0; 1024],
            };
            TimesRead {
                refused: u8::from(fault.refusal),
                place: fault.at,
                times,
            }
        }
    }
}

// "40 bad row or key ..; 41 number beyond its limit; 42 pair listed twice"
pub fn times_number(n: u8) -> u8
    ensures { result ≡ times_number n }
{
    match n {
        3 => 41,
        4 => 42,
        _ => 40,
    }
}
