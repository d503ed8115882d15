//! Some signed edges of a walk at once.

ghost use Rattle.std.specs.Prelude.{◌≤◌};
ghost use Rattle.navigate.specs.declared.several.TheConstants.{SEVERAL};

use crate::directed::with_direction;
use topo_base::Signed;

/// So many signed edges are given at once, where so many are left.
pub const SEVERAL: usize = 16;

/// Some signed edges, one after the other.
#[derive(Clone, Copy)]
pub struct Several {
    edges: [Signed; SEVERAL],
    count: usize,
    ghost room: { count ≤ SEVERAL },
}

impl Several {
    ghost use Rattle.std.specs.Prelude.{◌≡◌, ◌<◌, ◌∷◌, ◌++◌, [], length};
    ghost use Rattle.navigate.specs.Several.{edges_in};
    ghost use Rattle.navigate.specs.declared.several.TheConstants.{SEVERAL};

    /// None yet.
    pub fn none() -> Several
        ensures { edges_in result ≡ [] }
    {
        Several {
            edges: [with_direction(1, true); SEVERAL],
            count: 0,
        }
    }

    /// None again.
    pub(crate) fn clear(&mut self)
        ensures { edges_in self.new ≡ [] }
    {
        self.count = 0;
    }

    /// One more behind them.
    #[inline(always)]
    pub(crate) fn push(&mut self, edge: Signed)
        requires { length (edges_in self.old) < SEVERAL }
        ensures { edges_in self.new ≡ edges_in self.old ++ edge ∷ [] }
    {
        self.edges[self.count] = edge;
        self.count += 1;
    }

    /// The signed edges.
    pub fn as_slice(&self) -> &[Signed]
        ensures { result.now ≡ edges_in self.now }
    {
        &self.edges[..self.count]
    }
}
