// A test program: each argument names a text, by its end a sheet or an answer, and one line says what came of reading it:
// `NAME refused=N line=L start=S size=Z`, with the line at fault by its number and as a part of the text. make.py writes the cases.
#![tactic(auto)]

use program_io::show_number;

const STDOUT_FILENO: i32 = 1;

// Only after 2 to 5 is there a line at fault; else the part is empty.
fn write_reading(name: &[u8], text: &[u8], refused: u8, place: usize) {
    let (line, size) = match refused {
        2..=5 => (
            read_lines::line_number(text, place),
            read_lines::line_size(text, place),
        ),
        _ => (0, 0),
    };
    io::write_all(STDOUT_FILENO, name);
    show_number(STDOUT_FILENO, b" refused=", model::wide(refused));
    show_number(STDOUT_FILENO, b" line=", line);
    show_number(STDOUT_FILENO, b" start=", place);
    show_number(STDOUT_FILENO, b" size=", size);
    io::write_all(STDOUT_FILENO, b"\n");
}

fn read_text(name: &[u8], text: &[u8]) {
    if name.ends_with(b".sheet") {
        let mut tables = [0u32; 2002];
        let mut program = [0u32; 1282];
        let read = read_sheet::fill_sheet(text, &mut tables, &mut program);
        write_reading(name, text, read.refused, read.place);
    }
    if name.ends_with(b".answer") {
        let mut answer = [0u32; 3073];
        let read = read_answer::fill_answer(text, &mut answer);
        write_reading(name, text, read.refused, read.place);
    }
}

// The buffer has one byte more than a text may have, so a text that is too long is seen as such.
fn run_case(rt: &HostRuntime, i: usize) {
    let mut name = [0u8; 64];
    let k = program_io::read_argument(rt, i, &mut name);
    let mut buffer = [0u8; 32769];
    let n = program_io::read_named(rt, &name[..k], &mut buffer).unwrap_or(0);
    read_text(&name[..k], &buffer[..n]);
}

fn main(rt: HostRuntime) {
    let n = program_io::argument_count(&rt);
    for i in 1..n {
        run_case(&rt, i);
    }
}
