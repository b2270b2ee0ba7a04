// A sheet for the new rule: one that leaves the depth at 0 says 4 instead, which 0 stood for, and nothing else is altered.
// Promised: for every text the number and the line that `rewrite_spec` of crates/rewrite_spec gives of it, or the bytes of the rewritten sheet; beside a
// refusal the lent buffer as it was found.
#![tactic(auto)]

ghost use Rattle.std.specs.Prelude.{◌≡◌, ◌≤◌, length};
ghost use Rattle.io.specs.Counts.{IsPrefixLen};
ghost use Rattle.judge_spec.specs.Judged.{over};
ghost use Rattle.rewrite_spec.specs.Rewritten.{sheet_after};
ghost use Rattle.rewrite_lib.specs.Rewrites.{Begins, Rewrites};

use model::Text;
use read_lines::LONGEST;

// Where the depth stands in a sheet that leaves it at 0: past `sheet=1`, its LF and `depth=`.
const DEPTH_AT: usize = 14;

// `refused` is 0 or the number, 1 to 5, `line` the line at fault; `written` the bytes of the rewritten sheet, 0 beside a refusal.
#[derive(Clone, Copy)]
pub struct Rewritten {
    pub refused: u8,
    pub line: usize,
    pub written: usize,
}

// A sheet that is read, of this depth, with 4 in the place of 0.
fn write_sheet(sheet: &[u8], depth: u32, out: &mut [u8; LONGEST]) -> usize
    requires sheet_len_bound { length sheet.now ≤ 32768 }
    requires begins { depth ≡ 0 → Begins sheet.now }
    ensures value { result ≡ length (sheet_after depth sheet.now) }
    ensures out_after { out.new ≡ over (sheet_after depth sheet.now) out.old }
{
    let written = write_items::write_key(out, 0, sheet);
    if depth == 0 {
        write_items::write_byte(out, DEPTH_AT, b'4');
        return written;
    }
    written
}

// The sheet of a text of any length, rewritten in the lent buffer.
pub fn rewrite(sheet: &[u8], out: &mut [u8; LONGEST]) -> Rewritten
    ensures rewrites { Rewrites sheet.now out.old result out.new }
    ensures counts { IsPrefixLen result.written out.new }
{
    let mut tables = [0u32; 2002];
    let mut program = [0u32; 1282];
    let read = read_sheet::fill_sheet(sheet, &mut tables, &mut program);
    let refused = read.refused != 0;
    if refused {
        let fault = judge_verdicts::after_fault(Text::Sheet, sheet, read.refused, read.place);
        return Rewritten {
            refused: read.refused,
            line: fault.line,
            written: 0,
        };
    }
    let depth = words::tables::depth(&tables);
    let written = write_sheet(sheet, depth, out);
    Rewritten {
        refused: 0,
        line: 0,
        written,
    }
}
