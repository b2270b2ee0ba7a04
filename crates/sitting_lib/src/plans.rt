// The block of a plan on the Aeolus paper.
ghost use Rattle.std.specs.Prelude.{◌≡◌};
ghost use Rattle.judge_spec.specs.Judged.{lent_bytes};
ghost use Rattle.aeolus_judge_spec.specs.Judged.{judged, printed};
ghost use Rattle.write_items.specs.Written.{Written};
ghost use Rattle.sitting_spec.specs.End.{told_text};
ghost use Rattle.sitting_spec.specs.Plan.{plan_text, plan_at_fault, plan_block, empty_plan};

use crate::lines::{write_offending, write_where};
use item_spec::TOO_LONG;
use judge_spec::{LENT_BYTES, Place};
use model::Text;
use write_items::write_key;

// A weak demand is not met at the end, of which no one action is at fault.
const UNMET_AT_THE_END: u8 = 70;

fn write_word(t: &mut [u8], at: usize, text: Text, refused: u8) -> usize
    ensures { Written t.old (plan_text text refused) t.new at result }
{
    match text {
        Text::Neither => {
            if refused == 0 {
                return write_key(t, at, b"allowed");
            }
            write_key(t, at, b"refused")
        }
        Text::Sheet => write_key(t, at, b"paper"),
        Text::Answer => write_key(t, at, b"fault"),
        Text::Times => write_key(t, at, b"paper"),
        Text::Start => write_key(t, at, b"paper"),
    }
}

fn plan_at_fault(text: Text, refused: u8) -> bool
    ensures { result ≡ plan_at_fault text refused }
{
    match text {
        Text::Neither => {
            if refused == 0 {
                return false;
            }
            refused != UNMET_AT_THE_END
        }
        Text::Sheet => false,
        Text::Answer => refused != TOO_LONG,
        Text::Times => false,
        Text::Start => false,
    }
}

fn write_print(t: &mut [u8], at: usize, sheet: &[u8], plan: &[u8]) -> usize
    ensures { Written t.old (printed sheet.now plan.now) t.new at result }
{
    let mut report = [0u8; LENT_BYTES];
    let used = aeolus_lib::print(sheet, plan, &mut report);
    write_key(t, at, &report[..used])
}

// All but the last of the seven lines.
fn write_told(t: &mut [u8], at: usize, text: Text, refused: u8, place: Place, plan: &[u8]) -> usize
    ensures { Written t.old (told_text (plan_text text refused) (plan_at_fault text refused) place plan.now) t.new at result }
{
    let pointed = plan_at_fault(text, refused);
    let a = write_key(t, at, b"outcome=");
    let b = write_word(t, a, text, refused);
    let c = write_where(t, b, pointed, place, plan);
    write_offending(t, c, pointed, place, plan)
}

// The block, at a position of a lent buffer.
pub fn write_plan(t: &mut [u8], at: usize, sheet: &[u8], plan: &[u8]) -> usize
    ensures { Written t.old (plan_block sheet.now plan.now) t.new at result }
{
    let mut report = [0u8; LENT_BYTES];
    let judged = aeolus_lib::judge_and_place(sheet, plan, &mut report);
    let verdict = judged.verdict;
    let place = judged.place;
    let text = verdict.text;
    let a = write_print(t, at, sheet, plan);
    let b = write_told(t, a, text, verdict.refused, place, plan);
    write_key(t, b, b"\ninstruction=-\n")
}

// What the paper itself is refused with: beside a plan of no steps.
pub fn paper_verdict(sheet: &[u8]) -> aeolus_judge_spec::Verdict
    ensures { result ≡ (judged sheet.now empty_plan lent_bytes).verdict }
{
    let mut report = [0u8; LENT_BYTES];
    aeolus_lib::judge(sheet, b"plan=1\nsteps=0\n", &mut report)
}
