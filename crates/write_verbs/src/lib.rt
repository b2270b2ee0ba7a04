// The lines of verbs, do= and step=: a row of a table each.
// Promised: every byte of the lent buffer, and the number of the line, for all numbers, also codes that no line says.
#![tactic(auto)]

ghost use Rattle.std.specs.Prelude.{◌++◌, ◌≡◌, not, ◌≤◌, length, take};
ghost use Rattle.read_spec.specs.Kinds.{an_instruction, a_step};
ghost use Rattle.rules_spec.specs.Refusal.{◌⇒◌∣◌};
ghost use Rattle.write_items.specs.Written.{Written};
ghost use Rattle.write_spec.specs.Kinds.{do_text, do_fault, step_text, step_fault};
ghost use Rattle.write_lines.specs.Numbers.{numbers_text};
ghost use Rattle.write_verbs.specs.Verbs.{as_instruction, as_step, numbers_ok, Says, edition_of, is_foreign};

use item_spec::{BAD_FORM, BEYOND_LIMIT};
use rules_spec::refuse_if;
use write_lines::write_line;

// What a line says: a verb's code, then id, number, provider and provideport, 0 for those that it has not.
#[derive(Clone, Copy)]
pub struct Said(pub u32, pub u32, pub u32, pub u32, pub u32);

// The key, how many numbers follow, what each lies below, and the number of a line where they do.
#[derive(Drop)]
struct Verb(&'static [u8], u32, [u32; 4], u8);

// In a sheet of so many types, one with tickets for the verbs that have one. A code that no line says has no word.
fn do_verb(types: u32, verb: u32) -> Verb
    ensures { Says result (λ a b c d. do_text (an_instruction verb a b c d)) (λ a b c d. do_fault (edition_of verb) types (an_instruction verb a b c d)) }
{
    match verb {
        0 => Verb(b"do=add,", 2, [32, types, 0, 0], 0),
        1 => Verb(b"do=del,", 1, [32, 0, 0, 0], 0),
        2 => Verb(b"do=pushb,", 2, [32, 8, 0, 0], 0),
        3 => Verb(b"do=con,", 4, [32, 16, 32, 16], 0),
        4 => Verb(b"do=dcon,", 4, [32, 16, 32, 16], 0),
        5 => Verb(b"do=wait,", 1, [32, 0, 0, 0], 0),
        6 => Verb(b"do=pushb,", 3, [32, 8, 256, 0], 0),
        7 => Verb(b"do=wait,", 2, [32, 256, 0, 0], 0),
        _ => Verb(b"do=\n", 0, [0; 4], BAD_FORM),
    }
}

fn step_verb(verb: u32) -> Verb
    ensures { Says result (λ a b c d. step_text (a_step verb a b)) (λ a b c d. step_fault (a_step verb a b)) }
{
    match verb {
        0 => Verb(b"step=next\n", 0, [0; 4], 0),
        1 => Verb(b"step=fire,", 2, [32, 16, 0, 0], 0),
        2 => Verb(b"step=end,", 2, [32, 32, 0, 0], 0),
        3 => Verb(b"step=enter,", 2, [32, 16, 0, 0], 0),
        4 => Verb(b"step=finish,", 1, [32, 0, 0, 0], 0),
        _ => Verb(b"step=\n", 0, [0; 4], BAD_FORM),
    }
}

fn write_verb(t: &mut [u8], verb: Verb, x: Said) -> usize
    ensures { Written t.old (verb.0.now ++ numbers_text verb.1 x.1 x.2 x.3 x.4)
        t.new 0 result }
{
    write_line(t, verb.0, verb.1, x.1, x.2, x.3, x.4)
}

fn within(count: u32, below: [u32; 4], x: Said) -> bool
    ensures { result ≡ numbers_ok count below x.1 x.2 x.3 x.4 }
{
    let id = x.1 < below[0];
    let number = x.2 < below[1];
    let provider = x.3 < below[2];
    let provideport = x.4 < below[3];
    match count {
        0 => true,
        1 => id,
        2 => id & number,
        3 => id & (number & provider),
        _ => id & (number & (provider & provideport)),
    }
}

fn verb_fault(verb: Verb, x: Said) -> u8
    ensures { result ≡ (not (numbers_ok verb.1 verb.2 x.1 x.2 x.3 x.4) ⇒ 3 ∣ verb.3) }
{
    let below = verb.2;
    let ok = within(verb.1, below, x);
    refuse_if(!ok, BEYOND_LIMIT, verb.3)
}

// do=
pub fn write_do(t: &mut [u8], x: Said) -> usize
    ensures { Written t.old (do_text (as_instruction x)) t.new 0 result }
{
    let verb = do_verb(0, x.0);
    write_verb(t, verb, x)
}

// A verb that no line says in a sheet that opens with this number: there each push has a ticket, or none has and no wait.
fn is_foreign(edition: u32, verb: u32) -> bool
    ensures { result ≡ is_foreign edition verb }
{
    if edition == 2 {
        verb == 2
    } else {
        (verb == 6) | (verb == 7)
    }
}

// In a sheet of so many types that opens with this number.
pub fn do_fault(edition: u32, types: u32, x: Said) -> u8
    ensures { result ≡ do_fault edition types (as_instruction x) }
{
    if is_foreign(edition, x.0) {
        return BAD_FORM;
    }
    verb_fault(do_verb(types, x.0), x)
}

// step=
pub fn write_step(t: &mut [u8], x: Said) -> usize
    ensures { Written t.old (step_text (as_step x)) t.new 0 result }
{
    let verb = step_verb(x.0);
    write_verb(t, verb, x)
}

pub fn step_fault(x: Said) -> u8
    ensures { result ≡ step_fault (as_step x) }
{
    verb_fault(step_verb(x.0), x)
}
