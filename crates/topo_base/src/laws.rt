//! Laws of the definitions, each the contract of a function that does nothing.

ghost use Rattle.std.specs.Prelude.{◌≡◌, ◌<◌, ◌≤◌, ℕ, ℤ, pos, List, Some, decimal, IsTrue, IsFalse, ◌≢◌, ◌⊎◌};
ghost use Rattle.std.specs.Fmt.{signed_decimal};
ghost use Rattle.topo_base.specs.SignedEdge.{IsSignedEdge, comes_before, edge_of, reverse};
ghost use Rattle.topo_base.specs.Spelling.{id_number, positive_number, signed_number};
ghost use Rattle.topo_base.specs.declared.id.TheConstants.{LARGEST_ID};

/// An id is spelled in one way, as it is printed.
pub fn id_spelling()
    ensures text { (bytes : List ℕ) (n : ℕ) → id_number bytes ≡ Some n → bytes ≡ decimal n }
    ensures in_range { (bytes : List ℕ) (n : ℕ) → id_number bytes ≡ Some n → n ≤ LARGEST_ID }
    ensures reads { (n : ℕ) → n ≤ LARGEST_ID → id_number (decimal n) ≡ Some n }
{}

/// An id from 1 on is spelled in one way, as it is printed.
pub fn positive_spelling()
    ensures text { (bytes : List ℕ) (n : ℕ) → positive_number bytes ≡ Some n → bytes ≡ decimal n }
    ensures in_range { (bytes : List ℕ) (n : ℕ) → positive_number bytes ≡ Some n → n ≤ LARGEST_ID }
    ensures positive { (bytes : List ℕ) (n : ℕ) → positive_number bytes ≡ Some n → 1 ≤ n }
    ensures reads { (n : ℕ) → 1 ≤ n → n ≤ LARGEST_ID → positive_number (decimal n) ≡ Some n }
{}

/// A signed edge is spelled in one way, as it is printed.
pub fn signed_spelling()
    ensures text { (bytes : List ℕ) (d : ℤ) → signed_number bytes ≡ Some d → bytes ≡ signed_decimal d }
    ensures in_range { (bytes : List ℕ) (d : ℤ) → signed_number bytes ≡ Some d → IsSignedEdge d }
    ensures reads { (d : ℤ) → IsSignedEdge d → signed_number (signed_decimal d) ≡ Some d }
{}

/// Signed edges are in a strict total order: by the edge's id, and of one edge the forward one first.
pub fn signed_edge_order()
    ensures by_id { (d e : ℤ) → edge_of d < edge_of e → IsTrue (comes_before d e) }
    ensures forward_first { (n : ℕ) → 1 ≤ n → IsTrue (comes_before (pos n) (reverse (pos n))) }
    ensures irreflexive { (d : ℤ) → IsFalse (comes_before d d) }
    ensures transitive { (d e f : ℤ) → IsTrue (comes_before d e) → IsTrue (comes_before e f)
        → IsTrue (comes_before d f) }
    ensures total { (d e : ℤ) → d ≢ e → IsTrue (comes_before d e) ⊎ IsTrue (comes_before e d) }
{}
