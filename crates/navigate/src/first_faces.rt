//! The first faces of a list, which are put down at once.

use crate::first_edges::FIRST;
use arrayvec::ArrayVec;
use topo_base::IdNumber;

/// The first faces of a list, by their ids.
pub type FirstFaces = ArrayVec<IdNumber, FIRST>;
