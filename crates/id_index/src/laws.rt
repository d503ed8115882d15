//! Laws of rows by ids, each the contract of a function that does nothing.

ghost use Rattle.std.specs.Prelude.{◌≡◌, ◌==◌, ◌<◌, ◌↔◌, ℕ, List, Some, slice_get, slice_index, is_none, is_some, IsFalse, IsTrue};
ghost use Rattle.plane_model.specs.Sets.{has, is_distinct};
ghost use Rattle.id_index.specs.declared.index.IdIndex.{IdIndex};
ghost use Rattle.id_index.specs.Rows.{first_row};
ghost use Rattle.id_index.specs.Index.{IsIndex, row_in};

/// The row of an id is the first in which it stands, and an id has a row exactly where it is among the ids.
pub fn first_rows()
    ensures here { (ids : List ℕ) (index : IdIndex) → IsIndex ids index → (id row : ℕ) → row_in index id ≡ Some row
        → slice_get ids row ≡ Some id }
    ensures first { (ids : List ℕ) (index : IdIndex) → IsIndex ids index → (id row : ℕ) → row_in index id ≡ Some row
        → (k : ℕ) → k < row → IsFalse (slice_index ids k == id) }
    ensures known { (ids : List ℕ) (index : IdIndex) → IsIndex ids index → (id : ℕ)
        → is_some (row_in index id) ≡ has ids id }
{}

/// No id stands twice exactly where the ids are distinct, and the index of these is the inverse of their list.
pub fn distinct_ids()
    ensures test { (ids : List ℕ) (index : IdIndex) → IsIndex ids index → is_none index.repeated ≡ is_distinct ids }
    ensures inverse { (ids : List ℕ) (index : IdIndex) → IsIndex ids index → IsTrue (is_distinct ids) → (id row : ℕ)
        → row_in index id ≡ Some row ↔ slice_get ids row ≡ Some id }
{}
