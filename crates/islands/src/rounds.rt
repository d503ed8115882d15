//! Placing by rounds.

ghost use Rattle.std.specs.Prelude.{◌≡◌, ◌<◌, ◌^◌, ℕ, Bool, List, IfOk, IsTrue, length, slice_index};
ghost use Rattle.plane_model.specs.Sets.{has};
ghost use Rattle.islands.specs.Numbered.{AreBelow};
ghost use Rattle.islands.specs.Starts.{AreOuterRings};

use crate::collect::round_rings;
use crate::enter::enter;
use crate::gather::gather;
use std::alloc::{AllocError, Global};

/// The outer rings by number, in the order of the rounds and rising in each round. The ring `i` has the face `faces[i]`
/// and the component `components[i]`.
pub fn outer_rings(
    alloc: Global,
    faces: &[u32],
    components: &[u32],
    face_count: usize,
    component_count: usize,
) -> Result<Vec<u32>, AllocError>
    requires below { AreBelow faces.now components.now face_count component_count }
    requires short { length faces.now < 2 ^ 32 }
    ensures below { IfOk result (λ starts. (s : ℕ) → IsTrue (has starts.items s) → s < length faces.now) }
    ensures rings { IfOk result (λ starts. AreOuterRings faces.now components.now face_count starts.items) }
{
    let on_face = gather(alloc, faces, face_count)?;
    let in_component = gather(alloc, components, component_count)?;
    let mut starts: Vec<u32> = Vec::new(alloc);
    let mut reached = vec![in alloc; false; component_count]?;
    let mut entered = vec![in alloc; false; face_count]?;
    entered[0] = true;
    let mut front = vec![in alloc; 0u32; 1]?;
    while !front.is_empty() {
        let now = round_rings(alloc, &on_face, components, &reached, &front)?;
        let next = enter(
            alloc,
            faces,
            components,
            &in_component,
            &now,
            &mut reached,
            &mut entered,
        )?;
        starts.extend_from_slice(&now)?;
        front = next;
    }
    Ok(starts)
}
