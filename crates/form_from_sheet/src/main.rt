// A sheet as a form: the sheet from standard input; out goes the form, rows of cells, or on standard error the number and the line at fault.
#![tactic(auto)]

use form_lib::Draft;

fn main(rt: HostRuntime) {
    form_lib::run(
        &rt,
        Draft::Form,
        b"form-from-sheet: standard input",
        b"text=sheet\n",
    );
}
