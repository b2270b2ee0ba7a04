// A test program. An argument names a sheet or an answer: it is read, written and compared, a sheet by way of a form too, `NAME same`. Or it names words,
// lines `PLACE,HIGH,LOW`, the others 0, with a room: `NAME refused=N bytes=B read=R beside=S`, what the writer answers, what the reader says of the text, and
// how many bytes of the buffer are as they were; then the text. make.py writes the cases.
#![tactic(auto)]

mod lent;

ghost use Rattle.io.specs.Counts.{IsPrefixLen};

use lent::{lend, read_words, room_of};
use program_io::show_number;
use write_texts::Written;

const STDOUT_FILENO: i32 = 1;

fn pen_sheet(tables: &[u32; 2002], program: &[u32; 1282], out: &mut [u8]) -> Written
    ensures { IsPrefixLen result.bytes out.new }
{
    write_texts::write_sheet(tables, program, out)
}

fn pen_answer(answer: &[u32; 3073], out: &mut [u8]) -> Written
    ensures { IsPrefixLen result.bytes out.new }
{
    write_texts::write_answer(answer, out)
}

fn pen_form(tables: &[u32; 2002], program: &[u32; 1282], out: &mut [u8]) -> Written
    ensures { IsPrefixLen result.bytes out.new }
{
    write_texts::write_form(tables, program, out)
}

// Through a form and back.
fn through_form(tables: &mut [u32; 2002], program: &mut [u32; 1282]) {
    let mut out = [0u8; 32768];
    let written = pen_form(tables, program, &mut out);
    let bytes = written.bytes;
    let mut text = [0u8; 32769];
    let used = form_cells::write_lines(&out[..bytes], &mut text);
    read_sheet::fill_form(&text[..used], tables, program);
}

fn same_sheet(text: &[u8]) -> bool {
    let mut tables = [0u32; 2002];
    let mut program = [0u32; 1282];
    read_sheet::fill_sheet(text, &mut tables, &mut program);
    let mut out = [0u8; 32768];
    let written = pen_sheet(&tables, &program, &mut out);
    let bytes = written.bytes;
    let same = check::same(&out[..bytes], text);
    through_form(&mut tables, &mut program);
    let written = pen_sheet(&tables, &program, &mut out);
    let bytes = written.bytes;
    same & check::same(&out[..bytes], text)
}

fn same_answer(text: &[u8]) -> bool {
    let mut answer = [0u32; 3073];
    read_answer::fill_answer(text, &mut answer);
    let mut out = [0u8; 32768];
    let written = pen_answer(&answer, &mut out);
    let bytes = written.bytes;
    check::same(&out[..bytes], text)
}

fn same_text(name: &[u8], text: &[u8]) -> bool {
    if name.ends_with(b".sheet") {
        return same_sheet(text);
    }
    same_answer(text)
}

// Bytes that no writer writes stand in the buffer first; how many of them are there yet from a place on.
fn untouched(out: &[u8], from: usize) -> usize {
    let mut n: usize = 0;
    for b in out.get(from..).unwrap_or(&[]) {
        n += usize::from(*b == b'~');
    }
    n
}

fn show_text(out: &[u8], bytes: usize) {
    let end = read_items::place_in(out, bytes);
    io::write_all(STDOUT_FILENO, &out[..end]);
}

// A long text is told by its length alone.
fn show_written(refused: u8, bytes: usize, read: u8, out: &[u8]) {
    show_number(STDOUT_FILENO, b" refused=", refused as usize);
    show_number(STDOUT_FILENO, b" bytes=", bytes);
    show_number(STDOUT_FILENO, b" read=", read as usize);
    show_number(STDOUT_FILENO, b" beside=", untouched(out, bytes));
    io::write_all(STDOUT_FILENO, b"\n");
    if bytes < 1000 {
        show_text(out, bytes);
    }
}

fn write_sheet(all: &[u32; 6358], out: &mut [u8]) {
    let mut tables = [0u32; 2002];
    let mut program = [0u32; 1282];
    lend(all, 0, 2002, &mut tables);
    lend(all, 2002, 1282, &mut program);
    let written = pen_sheet(&tables, &program, out);
    let bytes = written.bytes;
    let read = read_sheet::fill_sheet(&out[..bytes], &mut tables, &mut program);
    show_written(written.refused, bytes, read.refused, out);
}

fn write_answer(all: &[u32; 6358], out: &mut [u8]) {
    let mut answer = [0u32; 3073];
    lend(all, 3283, 3073, &mut answer);
    let written = pen_answer(&answer, out);
    let bytes = written.bytes;
    let read = read_answer::fill_answer(&out[..bytes], &mut answer);
    show_written(written.refused, bytes, read.refused, out);
}

fn write_lent(all: &[u32; 6358], out: &mut [u8]) {
    let room = read_items::place_in(out, room_of(all));
    if all[6357] == 0 {
        write_sheet(all, &mut out[..room]);
    } else {
        write_answer(all, &mut out[..room]);
    }
}

fn write_words(text: &[u8]) {
    let mut all = [0u32; 6358];
    read_words(text, &mut all);
    let mut out = [b'~'; 40000];
    write_lent(&all, &mut out);
}

fn run_text(rt: &HostRuntime, i: usize) {
    let mut name = [0u8; 64];
    let k = program_io::read_argument(rt, i, &mut name);
    let mut buffer = [0u8; 70000];
    let n = program_io::read_named(rt, &name[..k], &mut buffer).unwrap_or(0);
    io::write_all(STDOUT_FILENO, &name[..k]);
    if name[..k].ends_with(b".words") {
        write_words(&buffer[..n]);
        return;
    }
    if same_text(&name[..k], &buffer[..n]) {
        io::write_all(STDOUT_FILENO, b" same\n");
    } else {
        io::write_all(STDOUT_FILENO, b" not same\n");
    }
}

fn main(rt: HostRuntime) {
    let n = program_io::argument_count(&rt);
    for i in 1..n {
        run_text(&rt, i);
    }
}
