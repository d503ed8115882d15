//! What the map lacks: where the ids of a kind are 1, 2, 3 and so on, an id past the last is told by their number alone.

ghost use Rattle.std.specs.Prelude.{◌≡◌, ◌≢◌, ◌<◌, ◌≤◌, ℕ, false, length, slice_index, IsTrue};
ghost use Rattle.plane_model.specs.Answers.{has_node, has_signed_edge};
ghost use Rattle.plane_model.specs.Rotation.{is_face};
ghost use Rattle.id_names.specs.Views.{ids_of};
ghost use Rattle.navigate.specs.Bound.{served_map};
ghost use Rattle.query_text.specs.Lines.{line_of};
ghost use Rattle.topo_serve.specs.Unknown.{IsUnknown};

use id_names::NamesView;
use pemb_file::Served;
use query_text::Query;
use topo_base::{FaceId, IdNumber, NodeId, Signed};

/// Whether an id is past the last of these names, whose ids have no gap.
fn is_past(names: &NamesView<'_>, id: IdNumber) -> bool
    ensures positive { IsTrue result → 1 ≤ id }
    ensures missing { IsTrue result → (k : ℕ) → k < length (ids_of names.now) → slice_index (ids_of names.now) k ≢ id }
{
    names.is_gapless() && id > names.count() as IdNumber
}

/// Whether the map lacks a node, as far as the number of nodes tells.
fn lacks_node(served: &Served<'_>, node: NodeId) -> bool
    ensures { IsTrue result → has_node (served_map served.now) node.0 ≡ false }
{
    is_past(served.nodes(), node.0)
}

/// Whether the map lacks a signed edge, as far as the number of edges tells.
fn lacks_edge(served: &Served<'_>, edge: Signed) -> bool
    ensures { IsTrue result → has_signed_edge (served_map served.now) edge ≡ false }
{
    is_past(served.edges(), edge.edge().0)
}

/// Whether the map lacks a face, as far as the number of faces tells.
fn lacks_face(served: &Served<'_>, face: FaceId) -> bool
    ensures { IsTrue result → is_face (served_map served.now) face.0 ≡ false }
{
    is_past(served.faces(), face.0)
}

/// Whether the map lacks what a query names, as far as numbers of ids tell. No word is read.
pub(crate) fn is_unknown(served: &Served<'_>, query: &Query) -> bool
    ensures { IsTrue result → IsUnknown (served_map served.now) (line_of query.now) }
{
    match *query {
        Query::Node(node) | Query::Contains(node) => lacks_node(served, node),
        Query::Ring(edge) | Query::Next(edge) | Query::Ends(edge) | Query::Sides(edge) => {
            lacks_edge(served, edge)
        }
        Query::Face(face) | Query::Adjacent(face) | Query::Islands(face) | Query::Regions(face) =>
            lacks_face(served, face),
        Query::Common(..) | Query::Counts | Query::Blank | Query::Bad | Query::Long => false,
    }
}
