//! The faces that are entered after a round.

ghost use Rattle.std.specs.Prelude.{◌≡◌, ◌<◌, ◌^◌, ◌++◌, ℕ, Bool, false, List, IsTrue, IfOk, OnOk, length, slice_index, slice_index_or};
ghost use Rattle.plane_model.specs.Sets.{has};
ghost use Rattle.islands.specs.Lists.{AreLists, AreChains, listed};
ghost use Rattle.islands.specs.Rounds.{AreNextFaces, KeysAreMarked, AreAllEntered};

use crate::gather::NumbersByKey;
use std::alloc::{AllocError, Global};

/// Enters the faces of a component's rings, and appends those that were not entered.
fn open(
    faces: &[u32],
    in_component: &NumbersByKey,
    component: usize,
    entered: &mut Vec<bool>,
    next: &mut Vec<u32>,
) -> Result<(), AllocError>
    requires component { component < length in_component.now.last.items }
    requires same { length in_component.now.before.items ≡ length faces.now }
    requires chains { AreChains in_component.now.last.items in_component.now.before.items }
    requires faces { (i : ℕ) → i < length faces.now → slice_index faces.now i < length entered.old.items }
    ensures { OnOk result (AreAllEntered faces.now
        (listed in_component.now.last.items in_component.now.before.items component)
        entered.old.items entered.new.items next.old.items next.new.items) }
{
    let mut left = in_component.last[component];
    while left != 0 {
        let ring = left as usize - 1;
        let face = faces[ring];
        if !entered[face as usize] {
            entered[face as usize] = true;
            next.push(face)?;
        }
        left = in_component.before[ring];
    }
    Ok(())
}

/// Marks the components of a round's rings, and gives the faces beside them that were not entered.
pub fn enter(
    alloc: Global,
    faces: &[u32],
    components: &[u32],
    in_component: &NumbersByKey,
    now: &[u32],
    reached: &mut Vec<bool>,
    entered: &mut Vec<bool>,
) -> Result<Vec<u32>, AllocError>
    requires same { length components.now ≡ length faces.now }
    requires listed { length in_component.now.last.items ≡ length reached.old.items }
    requires rings { length in_component.now.before.items ≡ length faces.now }
    requires chains { AreChains in_component.now.last.items in_component.now.before.items }
    requires places { (k : ℕ) → k < length now.now → slice_index now.now k < length components.now }
    requires components { (i : ℕ) → i < length components.now
        → slice_index components.now i < length reached.old.items }
    requires faces { (i : ℕ) → i < length faces.now → slice_index faces.now i < length entered.old.items }
    requires lists { AreLists components.now (listed in_component.now.last.items in_component.now.before.items) }
    requires fresh { (i : ℕ) → IsTrue (has now.now i)
        → slice_index_or reached.old.items (slice_index components.now i) false ≡ false }
    ensures next { IfOk result (λ next. AreNextFaces faces.now components.now now.now entered.old.items next.items) }
    ensures reached { IfOk result (λ next. KeysAreMarked (slice_index components.now) now.now reached.old.items
        reached.new.items) }
    ensures entered { IfOk result (λ next. KeysAreMarked (λ f. f) next.items entered.old.items entered.new.items) }
{
    let mut next: Vec<u32> = Vec::new(alloc);
    for s in now {
        let component = components[*s as usize] as usize;
        if !reached[component] {
            reached[component] = true;
            open(faces, in_component, component, entered, &mut next)?;
        }
    }
    Ok(next)
}
