// The report as rows of a table.
ghost use Rattle.std.specs.Prelude.{◌≡◌, [], ◌∷◌};
ghost use Rattle.write_items.specs.Written.{Written};
ghost use Rattle.page_spec.specs.Piece.{piece_text, page_text};
ghost use Rattle.page_spec.specs.Page.{begins, cell_piece, report_byte, report_rows};

use model::at_or;
use sitting_shown::Among;
use write_items::write_key;

fn begins_line(report: &[u8], i: usize) -> bool
    ensures { result ≡ begins report.now i }
{
    if i == 0 {
        return true;
    }
    at_or(report, i - 1, 0) == b'\n'
}

fn write_cell(t: &mut [u8], at: usize, b: u8) -> usize
    ensures { Written t.old (piece_text (cell_piece b)) t.new at result }
{
    if b == b'\n' {
        return write_key(t, at, b"</td></tr>\n");
    }
    if b == b'=' {
        return write_key(t, at, b"</th><td>");
    }
    if b == b',' {
        return write_key(t, at, b"</td><td>");
    }
    let one = [b; 1];
    sitting_shown::show(t, at, Among::Markup, &one)
}

fn write_report_byte(t: &mut [u8], at: usize, first: bool, b: u8) -> usize
    ensures { Written t.old (page_text (report_byte first b)) t.new at result }
{
    if first {
        let p = write_key(t, at, b"<tr><th scope=\"row\">");
        return write_cell(t, p, b);
    }
    write_cell(t, at, b)
}

pub(crate) fn write_rows(t: &mut [u8], at: usize, report: &[u8]) -> usize
    ensures { Written t.old (page_text (report_rows report.now)) t.new at result }
{
    let mut p = at;
    for (i, b) in report.iter().enumerate() {
        p = write_report_byte(t, p, begins_line(report, i), *b);
    }
    p
}
