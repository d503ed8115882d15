//! The check of a code.

ghost use Rattle.std.specs.Prelude.{◌≡◌, ◌≤◌, ◌+◌, ◌*◌, length, IsTrue, Some, MatchResult};
ghost use Rattle.bit_words.specs.BitView.{bits_of};
ghost use Rattle.bit_words.specs.PackedView.{fields_of};
ghost use Rattle.code_laws.specs.Code.{code_with};
ghost use Rattle.code_laws.specs.SeqFault.{seq_fault, is_sound};

use crate::sequences::Sequences;
use bit_words::{BitView, PackedView, Steps};
use code_laws::SeqFault;
use std::sync::ledger::Ledger;

/// Whether these sequences and starts are a sound code: the bits of all positions, whether their edge is one of the
/// trees; of the tree's positions and of the others, whether they are the first of their edge; and the first position
/// of each component, and in the end their number. Err has the first fault, in the order of `SeqFault`.
pub fn check<C: Ledger>(
    a: BitView<'_>,
    b: BitView<'_>,
    dual: BitView<'_>,
    starts: PackedView<'_>,
    steps: &mut Steps<C>,
) -> Result<(), SeqFault>
    requires few { length (bits_of a) ≤ 2147483647 }
    requires few_starts { length (fields_of starts) ≤ 2147483647 }
    requires some { 1 ≤ length (fields_of starts) }
    requires sizes { length (bits_of b) + length (bits_of dual) ≡ length (bits_of a) }
    ensures checked { MatchResult result (λ _. IsTrue (is_sound (code_with (bits_of a.entry) (bits_of b.entry)
        (bits_of dual.entry) (fields_of starts.entry)))) (λ fault. seq_fault
        (code_with (bits_of a.entry) (bits_of b.entry) (bits_of dual.entry) (fields_of starts.entry)) ≡ Some fault) }
    ensures some_steps { steps.old + 1 ≤ steps.new }
    ensures cost { steps.new ≤ steps.old + 8 * (length (bits_of a.entry) + length (fields_of starts.entry)) + 64 }
{
    let sequences = Sequences {
        a,
        tree: b,
        dual,
        starts,
    };
    if let Some(index) = sequences.wrong_start(steps) {
        return Err(SeqFault::Starts {
            index: index as u64,
        });
    }
    let ones = sequences.ones(steps);
    if ones != b.len() {
        return Err(SeqFault::Ones { found: ones as u64 });
    }
    if let Some(component) = sequences.unbalanced(true, steps) {
        return Err(SeqFault::Tree {
            component: component as u64,
        });
    }
    if let Some(component) = sequences.unbalanced(false, steps) {
        return Err(SeqFault::Dual {
            component: component as u64,
        });
    }
    Ok(())
}
