// The overlap report: the first pair of entries that one moment can match.
#![tactic(auto)]

mod formed;
mod found;

ghost use Rattle.paper.specs.Promises.{Reported};

use formed::Formed;
use paper::{Report, limit, refusal};

// The overlap report of any words.
pub fn overlap(table: &[u16], witness: &mut [u16]) -> Report
    ensures { Reported table.now witness.old witness.new result }
{
    if !table_test::well_formed(table) {
        return Report::Unreported {
            number: refusal::TABLE_ILL_FORMED,
        };
    }
    if witness.len() < limit::WITNESS_WORDS {
        return Report::Unreported {
            number: refusal::WITNESS_TOO_SHORT,
        };
    }
    let lows = overlap_cells::lowest_functions(table::functions(table));
    Formed::new(table, &lows).first_clash(witness)
}
