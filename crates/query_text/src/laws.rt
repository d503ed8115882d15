//! Laws of the definitions, each the contract of a function that does nothing.

ghost use Rattle.std.specs.Prelude.{◌≡◌, ◌≤◌, ℕ, List, length};
ghost use Rattle.topo_base.specs.Script.{Item, Query, item_text, line, text, without_cr};
ghost use Rattle.topo_base.specs.Script.Line.{Ask};
ghost use Rattle.query_text.specs.Lines.{HasIdsInRange, HasNumbersInRange};

/// A query with ids in range is what its text says, and a line that says a query is its text.
pub fn query_texts()
    ensures reads { (q : Query) → HasIdsInRange q → line (text q) ≡ Ask q }
    ensures text { (bytes : List ℕ) (q : Query) → line bytes ≡ Ask q → without_cr bytes ≡ text q }
    ensures in_range { (bytes : List ℕ) (q : Query) → line bytes ≡ Ask q → HasIdsInRange q }
{}

/// A query with ids in range has at most 47 bytes with its colon, and an item at most 21.
pub fn text_lengths()
    ensures query { (q : Query) → HasIdsInRange q → length (text q) ≤ 46 }
    ensures item { (i : Item) → HasNumbersInRange i → length (item_text i) ≤ 21 }
{}
