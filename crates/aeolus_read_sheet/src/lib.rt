// A sheet of the Aeolus paper read whole into lent words: its types with their interfaces and states, each line from the part of the text that
// starts with it.
// Promised: for every text `fill_universe` answers the one number and place that `whole` gives of the paper's sheet, and the words say the
// universe that it gives, whatever they held before.
#![tactic(auto)]

mod types;

ghost use Rattle.std.specs.Prelude.{◌≡◌};
ghost use Rattle.read_lines.specs.Runs.{RunsTo, came};
ghost use Rattle.read_chain.specs.Chain.{shortly};
ghost use Rattle.read_chain.specs.Whole.{whole, beside};
ghost use Rattle.aeolus_model.specs.Model.{no_universe};
ghost use Rattle.aeolus_model.specs.Words.{universe_in};
ghost use Rattle.aeolus_read_spec.specs.Texts.{sheet};

use aeolus_model::Universe;
use read_chain::Place;
use read_lines::LineFault;
use types::read_types;

// The lines of a sheet, up to the text's end.
fn read_sheet(text: &[u8], universe: &mut Universe) -> Result<usize, LineFault>
    ensures { RunsTo text.now (came result (universe_in universe.new)) (shortly sheet text.now) }
{
    aeolus_model::clear_universe(universe);
    let at = read_chain::then_due(text, read_chain::length_run(text), b"aeolus=", 1)?;
    let (count, at) = read_chain::within_run(text, at, b"types=", 1, 16)?;
    aeolus_model::put_types(universe, count);
    let types = read_types(text, at, count, universe);
    read_chain::then_end(text, types)
}

// The universe of a text of any length, whatever the lent words held before; beside a refusal they are all 0.
pub fn fill_universe(text: &[u8], universe: &mut Universe) -> Place
    ensures { beside result (universe_in universe.new) ≡ whole no_universe sheet text.now }
{
    let read = read_sheet(text, universe);
    if read.is_err() {
        aeolus_model::clear_universe(universe);
    }
    read_chain::came_to(read)
}
