//! What the definitions of codes say of the walk that a code is made of.

ghost use Rattle.std.specs.Prelude.{◌≡◌, length, IsTrue};
ghost use Rattle.code_laws.specs.Code.{Code};
ghost use Rattle.code_laws.specs.SeqFault.{is_sound};
ghost use Rattle.code_laws.specs.Tour.{code_of};
ghost use Rattle.file_parts.specs.Walk.{firsts};

/// A sound code is the code of its own walk: of its kinds of edges, its first positions and its starts.
pub fn walk_of_a_code()
    ensures walk { (c : Code) → IsTrue (is_sound c) → length c.a ≡ length (firsts c) }
    ensures code { (c : Code) → IsTrue (is_sound c) → code_of c.a (firsts c) c.starts ≡ c }
{}
