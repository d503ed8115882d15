//! The signed edges of darts.

ghost use Rattle.std.specs.Prelude.{◌≡◌, ◌*◌, ◌<◌, IsTrue, length};
ghost use Rattle.std.specs.List.{list_all};
ghost use Rattle.topo_base.specs.SignedEdge.{IsSignedEdge, edge_of, is_forward};
ghost use Rattle.plane_model.specs.InRange.{is_id};
ghost use Rattle.rotation_check.specs.Darts.{signed_edge};

use plane_model::EdgeTable;
use topo_base::{IdNumber, Signed, SignedNumber};

/// Whether a signed edge runs from its edge's start to its end.
pub fn is_forward(number: SignedNumber) -> bool
    requires { IsSignedEdge number }
    ensures { result ≡ is_forward number }
{
    number > 0
}

/// The id of a signed edge's edge.
pub fn edge_id(number: SignedNumber) -> IdNumber
    ensures { result ≡ edge_of number }
{
    number.unsigned_abs()
}

/// The signed edge of a dart.
pub fn signed_of_dart(edges: &EdgeTable, dart: u32) -> Signed
    requires within { dart < 2 * length edges.now }
    requires ids { IsTrue (list_all (λ e. is_id e.id) edges.now) }
    ensures { result ≡ signed_edge edges.now dart }
{
    let forward = SignedNumber::try_from(edges.row((dart / 2) as usize).id).unwrap();
    let number = if dart % 2 == 0 { forward } else { -forward };
    Signed::new(number).unwrap()
}
