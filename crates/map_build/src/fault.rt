//! Why there is no image.

use bit_words::Memory;
use rotation_check::CheckFault;
use std::alloc::AllocError;
use topo_base::Refusal;

/// Why there is no image: what is first wrong with the tables, or want of memory.
#[derive(Clone, Copy, Debug, PartialEq, Eq)]
pub enum BuildFault {
    Refused(Refusal),
    Memory,
}

impl From<CheckFault> for BuildFault {
    ghost use Rattle.map_build.specs.BuildFaults.{is_fault_of};

    ghost from_gives = { is_fault_of };

    fn from(fault: CheckFault) -> BuildFault {
        match fault {
            CheckFault::Refused(refusal) => BuildFault::Refused(refusal),
            CheckFault::Memory => BuildFault::Memory,
        }
    }
}

impl From<Memory> for BuildFault {
    ghost use Rattle.std.specs.Prelude.{◌≡◌};
    ghost use Rattle.map_build.specs.declared.fault.BuildFault.TheVariants.{Memory};

    ghost from_gives = { λ _ e. e ≡ Memory };

    fn from(_fault: Memory) -> BuildFault {
        BuildFault::Memory
    }
}

impl From<AllocError> for BuildFault {
    ghost use Rattle.std.specs.Prelude.{◌≡◌};
    ghost use Rattle.map_build.specs.declared.fault.BuildFault.TheVariants.{Memory};

    ghost from_gives = { λ _ e. e ≡ Memory };

    fn from(_error: AllocError) -> BuildFault {
        BuildFault::Memory
    }
}
