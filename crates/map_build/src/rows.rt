//! What the rows of edges say of darts. The edge of row `i`, from 0, has the dart `2 * i` forward and `2 * i + 1`
//! backward.

ghost use Rattle.std.specs.Prelude.{◌≡◌, ◌*◌, ◌<◌, ◌%◌, ◌==◌, IsTrue, length, nat_le};
ghost use Rattle.std.specs.List.{list_all};
ghost use Rattle.topo_base.specs.declared.id.TheConstants.{LARGEST_ID};
ghost use Rattle.map_build.specs.DartRows.{row_at, start_of_dart, face_of_dart, key_of_dart};

use plane_model::{EdgeRow, EdgeTable};
use topo_base::IdNumber;

/// The row of a dart's edge.
fn row(edges: &EdgeTable, dart: u32) -> EdgeRow
    requires { dart < 2 * length edges.now }
    ensures { result ≡ row_at edges.now dart }
{
    edges.row((dart / 2) as usize)
}

/// Whether a dart runs from its edge's start to its end.
pub(crate) fn is_forward(dart: u32) -> bool
    ensures { result ≡ (dart % 2 == 0) }
{
    dart % 2 == 0
}

/// The id of a dart's edge.
pub(crate) fn edge_id(edges: &EdgeTable, dart: u32) -> IdNumber
    requires { dart < 2 * length edges.now }
    ensures { result ≡ (row_at edges.now dart).id }
{
    row(edges, dart).id
}

/// The id of the node that a dart leaves.
pub(crate) fn node_id(edges: &EdgeTable, dart: u32) -> IdNumber
    requires { dart < 2 * length edges.now }
    ensures { result ≡ start_of_dart edges.now dart }
{
    let row = row(edges, dart);
    if is_forward(dart) { row.start } else { row.end }
}

/// The id of the face on a dart's left.
pub(crate) fn face_id(edges: &EdgeTable, dart: u32) -> IdNumber
    requires { dart < 2 * length edges.now }
    ensures { result ≡ face_of_dart edges.now dart }
{
    let row = row(edges, dart);
    if is_forward(dart) {
        row.left_face
    } else {
        row.right_face
    }
}

/// A number that grows in the order of signed edges.
pub(crate) fn edge_key(edges: &EdgeTable, dart: u32) -> u64
    requires dart { dart < 2 * length edges.now }
    requires ids { IsTrue (list_all (λ e. nat_le e.id LARGEST_ID) edges.now) }
    ensures { result ≡ key_of_dart edges.now dart }
{
    2 * edge_id(edges, dart) + u64::from(dart % 2)
}
