//! Why a table can't be read.

ghost use Rattle.topo_csv.specs.declared.fault.CsvFault.TheVariants.{Memory, Refused};
ghost use Rattle.std.specs.Prelude.{◌≡◌};

use std::alloc::{AllocError, AllocFailed};
use topo_base::Refusal;

/// Why a table has no rows.
#[derive(Clone, Copy, Debug, PartialEq, Eq)]
pub enum CsvFault {
    /// The first thing that is wrong with the table.
    Refused(Refusal),
    /// An allocation failed.
    Memory,
}

impl From<Refusal> for CsvFault {
    ghost from_gives = { λ why fault. fault ≡ Refused why };

    fn from(why: Refusal) -> CsvFault {
        CsvFault::Refused(why)
    }
}

impl From<AllocError> for CsvFault {
    ghost from_gives = { λ _ fault. fault ≡ Memory };

    fn from(_error: AllocError) -> CsvFault {
        CsvFault::Memory
    }
}

impl<T: Drop> From<AllocFailed<T>> for CsvFault {
    ghost from_gives = { λ _ fault. fault ≡ Memory };

    fn from(_error: AllocFailed<T>) -> CsvFault {
        CsvFault::Memory
    }
}
