// A test program: each argument names a form. It prints `NAME refused=N row=R`, what `write_draft` answers, and then the sheet. make.py writes the cases.
#![tactic(auto)]

use form_lib::Draft;
use program_io::show_number;

const STDOUT_FILENO: i32 = 1;

// A form has room for a byte more than it may have.
fn run_case(rt: &HostRuntime, i: usize) {
    let mut name = [0u8; 64];
    let k = program_io::read_argument(rt, i, &mut name);
    let mut form = [0u8; 32769];
    let n = program_io::read_named(rt, &name[..k], &mut form).unwrap_or(0);
    let mut sheet = [0u8; 32768];
    let drafted = form_lib::write_draft(Draft::Sheet, &form[..n], &mut sheet);
    io::write_all(STDOUT_FILENO, &name[..k]);
    show_number(STDOUT_FILENO, b" refused=", model::wide(drafted.refused));
    show_number(STDOUT_FILENO, b" row=", drafted.line);
    io::write_all(STDOUT_FILENO, b"\n");
    let used = drafted.bytes;
    io::write_all(STDOUT_FILENO, &sheet[..used]);
}

fn main(rt: HostRuntime) {
    let n = program_io::argument_count(&rt);
    for i in 1..n {
        run_case(&rt, i);
    }
}
