// A form as a sheet: the form, rows of cells, from standard input; out goes the sheet, or on standard error the number and the row at fault.
#![tactic(auto)]

use form_lib::Draft;

fn main(rt: HostRuntime) {
    form_lib::run(
        &rt,
        Draft::Sheet,
        b"sheet-from-form: standard input",
        b"text=form\n",
    );
}
