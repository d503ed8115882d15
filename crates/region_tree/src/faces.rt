//! Faces by their ids, and members whose face is not there.

ghost use Rattle.std.specs.Prelude.{map};
ghost use Rattle.id_index.specs.Index.{IsIndex};

use id_index::IdIndex;
use plane_model::{FaceRow, MemberRow};
use rotation_check::face_ids;
use std::alloc::{AllocError, Global};
use topo_base::{IdNumber, Refusal, Table};

/// The rows of faces by their ids.
#[derive(Drop)]
pub struct FaceIndex<'a> {
    faces: &'a [FaceRow],
    rows: IdIndex,
    ghost index: { IsIndex (map (λ f. f.id) faces.now) rows },
}

impl<'a> FaceIndex<'a> {
    ghost use Rattle.std.specs.Prelude.{◌≡◌, ◌≤◌, IfOk, length, map};
    ghost use Rattle.plane_model.specs.Sets.{has};
    ghost use Rattle.plane_model.specs.Faults.{first_in};
    ghost use Rattle.region_tree.specs.Checked.{missing_face};

    /// The index of these faces.
    pub fn new(alloc: Global, faces: &'a [FaceRow]) -> Result<FaceIndex<'a>, AllocError>
        requires { length faces.now ≤ 16777216 }
        ensures { IfOk result (λ index. index.faces.now ≡ faces.now) }
    {
        Ok(FaceIndex {
            faces,
            rows: IdIndex::new(alloc, &face_ids(alloc, faces)?)?,
        })
    }

    /// Whether a face has this id.
    fn has(&self, id: IdNumber) -> bool
        ensures { result ≡ has (map (λ f. f.id) self.now.faces.now) id }
    {
        self.rows.row_of(id).is_some()
    }

    /// What is wrong where a member's face is not there.
    fn missing_face(&self, row: &MemberRow) -> Option<Refusal>
        ensures { result ≡ missing_face (map (λ f. f.id) self.now.faces.now) row.now }
    {
        if row.face == 0 || self.has(row.face) {
            return None;
        }
        Some(Refusal::NoFace {
            table: Table::Member,
            id: row.region,
            face: row.face,
        })
    }

    /// What is wrong with the first member whose face is not there.
    pub fn first_missing(&self, rows: &[MemberRow]) -> Option<Refusal>
        ensures { result ≡ first_in (missing_face (map (λ f. f.id) self.now.faces.now)) rows.now }
    {
        for row in rows {
            let fault = self.missing_face(row);
            if fault.is_some() {
                return fault;
            }
        }
        None
    }
}
