// The number of each kind of line, 0 where it is read: 2 before 3 before 4.
ghost use Rattle.std.specs.Prelude.{◌≡◌};
ghost use Rattle.read_spec.specs.Limits.{mask_ok};
ghost use Rattle.rules_spec.specs.Refusal.{◌⇒◌∣◌};
ghost use Rattle.write_spec.specs.Kinds.{limit_fault, edition_fault, initial_fault};
ghost use Rattle.read_sheet_lines.specs.declared.Rows.TheVariants.{Transitions, Ports};
ghost use Rattle.write_lines.specs.Rows.{row_fault};

use item_spec::{BAD_CLAUSE, BAD_FORM, BEYOND_LIMIT};
use read_sheet_lines::{Known, Row, Rows};
use rules_spec::refuse_if;
use sets::{mask_ok, overlaps};

pub fn limit_fault(ok: bool) -> u8
    ensures { result ≡ limit_fault ok }
{
    refuse_if(!ok, BEYOND_LIMIT, 0)
}

// `sheet=`
pub fn edition_fault(e: u32) -> u8
    ensures { result ≡ edition_fault e }
{
    refuse_if(!((e == 1) | (e == 2)), BAD_FORM, 0)
}

pub fn initial_fault(places: u32, initial: u32) -> u8
    ensures { result ≡ initial_fault places initial }
{
    let empty = refuse_if(initial == 0, BAD_CLAUSE, 0);
    let ok = mask_ok(places, initial);
    refuse_if(!ok, BEYOND_LIMIT, empty)
}

fn tran_fault(known: Known, row: Row) -> u8
    ensures { result ≡ row_fault Transitions known row }
{
    let equal = refuse_if(row.source == row.destination, BAD_CLAUSE, 0);
    let ok = (row.source < known.places) & (row.destination < known.places);
    refuse_if(!ok, BEYOND_LIMIT, equal)
}

fn port_fault(known: Known, row: Row) -> u8
    ensures { result ≡ row_fault Ports known row }
{
    let early = (row.uses == 1) & overlaps(known.initial, row.places);
    let initial = refuse_if(early, BAD_CLAUSE, 0);
    let ok = mask_ok(known.places, row.places) & mask_ok(known.transitions, row.transitions);
    let beyond = refuse_if(!ok, BEYOND_LIMIT, initial);
    refuse_if(!(row.uses <= 1), BAD_FORM, beyond)
}

// tran=, behavior=, port=, in a type of which so much is known.
pub fn row_fault(rows: Rows, known: Known, row: Row) -> u8
    ensures { result ≡ row_fault rows known row }
{
    match rows {
        Rows::Transitions => tran_fault(known, row),
        Rows::Behaviors => limit_fault(mask_ok(known.transitions, row.transitions)),
        Rows::Ports => port_fault(known, row),
    }
}
