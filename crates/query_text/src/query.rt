//! What a line of a script says.

use topo_base::{FaceId, NodeId, Signed};

/// What a line says. `Blank`, `Bad` and `Long` ask nothing.
#[derive(Clone, Copy, Debug, PartialEq, Eq)]
pub enum Query {
    /// Spaces alone, no byte, or a comment: answered with nothing.
    Blank,
    /// None of the forms.
    Bad,
    /// More than 255 bytes.
    Long,
    /// The signed edges that leave a node.
    Node(NodeId),
    /// The ring of a signed edge, from that one on.
    Ring(Signed),
    /// The signed edge that follows on the ring.
    Next(Signed),
    /// The nodes that a signed edge leaves and reaches.
    Ends(Signed),
    /// The faces on the left and on the right of a signed edge.
    Sides(Signed),
    /// The signed edges of a face.
    Face(FaceId),
    /// The faces across the edges of a face.
    Adjacent(FaceId),
    /// The face in which a node's component lies, or the node itself where it is isolated.
    Contains(NodeId),
    /// What lies in a face: components by their smallest signed edge, then isolated nodes.
    Islands(FaceId),
    /// The region of a face, its parent, and so on.
    Regions(FaceId),
    /// The first region of one face that the other lies in too.
    Common(FaceId, FaceId),
    /// The numbers of nodes, edges, faces, components and regions.
    Counts,
}
