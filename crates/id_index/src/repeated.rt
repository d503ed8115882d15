//! The least id that stands twice, as ids are passed from the last row to the first.

ghost use Rattle.std.specs.Prelude.{◌≡◌};
ghost use Rattle.id_index.specs.Repeated.{with_id};

use topo_base::IdNumber;

/// The least id that stands twice, with one id more in front of the others: does it stand among them?
pub(crate) fn with_id(behind: Option<IdNumber>, id: IdNumber, again: bool) -> Option<IdNumber>
    ensures { result ≡ with_id behind id again }
{
    match behind {
        Some(least) if again => Some(least.min(id)),
        None if again => Some(id),
        _ => behind,
    }
}
