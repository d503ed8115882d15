//! The numbers of names by the places of their ids.

ghost use Rattle.std.specs.Prelude.{◌≡◌, ◌≤◌, ◌+◌, ◌*◌, length};
ghost use Rattle.scratch_region.specs.Numbers.{numbers_of};
ghost use Rattle.id_names.specs.Views.{ids_of};
ghost use Rattle.table_dump.specs.ByRank.{AreByRank};

use bit_words::Steps;
use id_names::NamesView;
use scratch_region::Numbers;
use std::sync::ledger::Ledger;

/// Puts the number of each id at the id's place in the order of ids.
pub(crate) fn put_by_rank<C: Ledger>(
    names: NamesView<'_>,
    numbers: &mut Numbers<'_>,
    steps: &mut Steps<C>,
)
    requires { length (numbers_of numbers.old) ≡ length (ids_of names) }
    ensures numbers { AreByRank (ids_of names.entry) (numbers_of numbers.new) }
    ensures grows { steps.old ≤ steps.new }
    ensures cost { steps.new ≤ steps.old + 2 * length (ids_of names.entry) }
{
    for number in 0..names.count() {
        let place = names.rank_of(number, steps);
        numbers.set(place, number as u64);
    }
}
