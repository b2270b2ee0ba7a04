// Whether a text has room in the lent buffer.
// Promised: 1, 6 or 0, of all numbers.
#![tactic(auto)]

ghost use Rattle.std.specs.Prelude.{◌≡◌, not, leb};
ghost use Rattle.read_spec.specs.Limits.{length_ok};
ghost use Rattle.rules_spec.specs.Refusal.{◌⇒◌∣◌};

use item_spec::{BUFFER_SHORT, TOO_LONG};
use read_lines::LONGEST;

// 1 before 6, of a text of so many bytes.
pub fn room_fault(length: usize, room: usize) -> u8
    ensures { result ≡ (not (length_ok length) ⇒ 1 ∣ not (leb length room) ⇒ 6 ∣ 0) }
{
    if LONGEST < length {
        return TOO_LONG;
    }
    let short = room < length;
    if short {
        return BUFFER_SHORT;
    }
    0
}
