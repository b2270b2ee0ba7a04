// The fault of each text of a paper, before any answer exists.
// Promised: on any bytes, the number and the line that crates/faults_spec/specs says of each text, and every byte that the program prints.
#![tactic(auto)]

ghost use Rattle.std.specs.Prelude.{◌≡◌, ◌++◌, length};
ghost use Rattle.std.specs.Option.{is_some};
ghost use Rattle.io.specs.Counts.{IsPrefixLen};
ghost use Rattle.judge_spec.specs.Judged.{over};
ghost use Rattle.judge_spec.specs.Lent.{lent, text_lent};
ghost use Rattle.judge_lib.specs.Alone.{paper_fault};
ghost use Rattle.write_items.specs.Written.{Written};
ghost use Rattle.faults_spec.specs.Faults.{sheet_fault, start_fault, times_fault, times_fault_if, found_text, faults_text};

use judge_lib::papers::{PaperFault, no_fault, read_paper};
use judge_spec::Paper;
use model::Text;

// What is printed has always room in so many bytes.
pub const FAULTS_BYTES: usize = 256;

// What the sheet and the start say is not looked at here.
fn paper_fault(paper: Paper<'_>) -> PaperFault
    ensures { result ≡ paper_fault (lent paper.entry) }
{
    let mut tables = [0u32; 2002];
    let mut program = [0u32; 1282];
    let mut state = [0u32; 930];
    let mut begun = [0u32; 288];
    read_paper(paper, &mut tables, &mut program, &mut state, &mut begun)
}

pub fn sheet_fault(sheet: &[u8]) -> PaperFault
    ensures { result ≡ sheet_fault sheet.now }
{
    paper_fault(Paper { sheet, start: None })
}

pub fn start_fault(paper: Paper<'_>) -> PaperFault
    ensures { result ≡ start_fault (lent paper.entry) }
{
    let fault = paper_fault(paper);
    let text = fault.text;
    match text {
        Text::Start => fault,
        _ => no_fault(),
    }
}

// "They act as 2 does, with `text=times`"
pub fn times_fault(times: &[u8]) -> PaperFault
    ensures { result ≡ times_fault times.now }
{
    let read = read_times::read_times(times);
    let n = read.refused;
    if n == 0 {
        return no_fault();
    }
    let fault = judge_verdicts::after_fault(Text::Times, times, n, read.place);
    PaperFault {
        text: Text::Times,
        refused: read_times::times_number(n),
        line: fault.line,
    }
}

fn times_fault_if(times: Option<&[u8]>) -> PaperFault
    ensures { result ≡ times_fault_if (is_some times.entry) (text_lent times.entry) }
{
    match times {
        Some(times) => times_fault(times),
        None => no_fault(),
    }
}

// text=, line=, refused=, or nothing where nothing is at fault.
fn write_found(t: &mut [u8], fault: PaperFault) -> usize
    ensures { Written t.old (found_text fault) t.new 0 result }
{
    if fault.refused == 0 {
        return 0;
    }
    let text = fault.text;
    write_report::write_fault(t, text, fault.line, fault.refused)
}

// The faults of sheet, start and times, one after the other.
fn write_faults(t: &mut [u8], sheet: PaperFault, start: PaperFault, times: PaperFault) -> usize
    ensures { Written t.old (found_text sheet ++ found_text start ++ found_text times) t.new 0 result }
{
    let mut used = write_found(t, sheet);
    used += write_found(&mut t[used..], start);
    used + write_found(&mut t[used..], times)
}

// What the `faults` program prints.
pub fn faults_print(paper: Paper<'_>, times: Option<&[u8]>, out: &mut [u8; FAULTS_BYTES]) -> usize
    ensures prints { (result ≡ length (faults_text (lent paper.entry) (is_some times.entry) (text_lent times.entry)))
        × (out.new ≡ over (faults_text (lent paper.entry) (is_some times.entry) (text_lent times.entry)) out.old) }
    ensures counts { IsPrefixLen result out.new }
{
    let in_sheet = sheet_fault(paper.sheet);
    let in_start = start_fault(paper);
    let in_times = times_fault_if(times);
    write_faults(out, in_sheet, in_start, in_times)
}
