//! The forms of queries: a word, and what stands behind it.

ghost use Rattle.std.specs.Prelude.{◌≡◌, ◌≤◌, ℕ, List, ◌∷◌, None, IfNone, IfSome, length, find, bytes_eq};
ghost use Rattle.topo_base.specs.Script.{query};
ghost use Rattle.query_text.specs.Forms.{word_of};

/// A form of queries, one for each word.
#[derive(Clone, Copy, Debug, PartialEq, Eq)]
pub enum Form {
    Node,
    Ring,
    Next,
    Ends,
    Sides,
    Face,
    Adjacent,
    Contains,
    Islands,
    Regions,
    Common,
    Counts,
}

impl Form {
    /// The word with which a query of this form begins.
    pub fn word(self) -> &'static [u8]
        ensures word { result.now ≡ word_of self }
        ensures short { length result.now ≤ 8 }
    {
        match self {
            Form::Node => b"node",
            Form::Ring => b"ring",
            Form::Next => b"next",
            Form::Ends => b"ends",
            Form::Sides => b"sides",
            Form::Face => b"face",
            Form::Adjacent => b"adjacent",
            Form::Contains => b"contains",
            Form::Islands => b"islands",
            Form::Regions => b"regions",
            Form::Common => b"common",
            Form::Counts => b"counts",
        }
    }

    /// The form whose queries begin with this word.
    pub fn of_word(word: &[u8]) -> Option<Form>
        ensures known { IfSome result (λ form. word.now ≡ word_of form) }
        ensures unknown { IfNone result ((pieces : List (List ℕ)) → query (word.now ∷ pieces) ≡ None) }
    {
        match word {
            b"node" => Some(Form::Node),
            b"ring" => Some(Form::Ring),
            b"next" => Some(Form::Next),
            b"ends" => Some(Form::Ends),
            b"sides" => Some(Form::Sides),
            b"face" => Some(Form::Face),
            b"adjacent" => Some(Form::Adjacent),
            b"contains" => Some(Form::Contains),
            b"islands" => Some(Form::Islands),
            b"regions" => Some(Form::Regions),
            b"common" => Some(Form::Common),
            b"counts" => Some(Form::Counts),
            _ => None,
        }
    }
}
