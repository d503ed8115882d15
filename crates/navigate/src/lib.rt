//! Walks and look-ups over one borrowed file. No call takes memory, and each reads at most as many words as its
//! contract says. A walk is its own state alone, so that any number of them may stand over one file.
#![tactic(auto)]

mod across;
mod ahead;
mod common_region;
mod directed;
mod edges;
mod face_rings;
mod faces;
mod first_edges;
mod first_faces;
mod inside;
mod islands;
mod kept_stops;
mod look_ups;
mod looks;
mod names;
mod neighbours;
mod orbit_walk;
mod places;
mod positions;
mod ranked;
mod ranked_edges;
mod rounds;
mod search;
mod several;
mod unseen;
mod upward;

pub use across::AdjacentWalk;
pub use ahead::look_ahead;
pub use common_region::{common, region_walk};
pub use directed::{number_with, with_direction};
pub use edges::{FaceEdges, NodeEdges, RingEdges, face_edges, node_edges, ring_edges};
pub use face_rings::FaceWalk;
pub use faces::{face_walk, face_walk_begun, rings_at};
pub use first_edges::{FIRST, FirstEdges};
pub use first_faces::FirstFaces;
pub use inside::{Island, IslandWalk};
pub use islands::island_walk;
pub use look_ups::{containing, ends, next, sides};
pub use names::{face_in, place_of};
pub use neighbours::{adjacent_walk, adjacent_walk_begun};
pub use orbit_walk::{NodeWalk, RingWalk};
pub use positions::place_beside;
pub use rounds::{node_walk, node_walk_begun, ring_walk};
pub use several::{SEVERAL, Several};
pub use upward::RegionWalk;
