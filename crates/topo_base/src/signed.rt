//! An edge with a direction.

ghost use Rattle.std.specs.Prelude.{◌≡◌, ◌<◌, ◌⊎◌, ◌↔◌, IsNone, IfSome};
ghost use Rattle.topo_base.specs.SignedEdge.{IsSignedEdge, comes_before, edge_of, is_forward, reverse};
ghost use Rattle.topo_base.specs.declared.id.TheConstants.{LARGEST_ID};

use crate::id::{EdgeId, LARGEST_ID, SignedNumber};
use std::marker::Model;

/// A number other than zero, of absolute value at most `LARGEST_ID`: an edge's id where it is walked
/// from its start to its end, and the id below zero where it is walked back. Contracts see the number.
#[derive(Clone, Copy, Debug, PartialEq, Eq)]
pub struct Signed {
    number: SignedNumber,
}

impl Model for Signed {
    ghost use Rattle.std.specs.Prelude.{ℤ};
    ghost use Rattle.topo_base.specs.SignedEdge.{IsSignedEdge};

    ghost Value = { ℤ };

    ghost view = { λ s. s.number };

    ghost invariant = { λ s. IsSignedEdge s.number };

    ghost inverse = { λ d. record { number = d } };
}

impl Signed {
    /// The signed edge of this number, or `None` where it is zero or too far from zero.
    pub fn new(value: SignedNumber) -> Option<Signed>
        ensures none { IsNone result ↔ ((edge_of value ≡ 0) ⊎ (LARGEST_ID < edge_of value)) }
        ensures some { IfSome result (λ d. d ≡ value) }
    {
        if value == 0 || value.unsigned_abs() > LARGEST_ID {
            None
        } else {
            Some(Signed { number: value })
        }
    }

    /// The number, never zero: below zero where the edge is walked back.
    pub fn value(self) -> SignedNumber
        ensures value { result ≡ self }
        ensures in_range { IsSignedEdge self }
    {
        self.number
    }

    /// The same edge walked the other way.
    pub fn reverse(self) -> Signed
        ensures { result ≡ reverse self }
    {
        Signed {
            number: -self.number,
        }
    }

    /// The edge that is walked.
    pub fn edge(self) -> EdgeId
        ensures { result.0 ≡ edge_of self }
    {
        EdgeId(self.number.unsigned_abs())
    }

    /// Whether the edge is walked from its start to its end.
    pub fn is_forward(self) -> bool
        ensures { result ≡ is_forward self }
    {
        self.number > 0
    }

    /// Whether this one is the smaller of the two: by the edge's id, and of one edge the forward one first.
    pub fn key_less(self, other: Signed) -> bool
        ensures { result ≡ comes_before self other }
    {
        let (edge, other_edge) = (self.number.unsigned_abs(), other.number.unsigned_abs());
        edge < other_edge || (edge == other_edge && self.is_forward() && !other.is_forward())
    }
}
