//! Reads the lines of a script.

ghost use Rattle.std.specs.Prelude.{◌≡◌, ◌==◌, [], ◌∷◌, position, MatchOption};
ghost use Rattle.std.specs.List.{list_all};
ghost use Rattle.topo_base.specs.Script.{ask_or_bad, is_comment, line, query, short_line, without_cr, words};
ghost use Rattle.topo_base.specs.Spelling.{signed_number};
ghost use Rattle.query_text.specs.Lines.{line_of, line_or_bad};
ghost use Rattle.query_text.specs.Forms.{form_query, two_faces, word_query};

use crate::form::Form;
use crate::query::Query;
use topo_base::{FaceId, NodeId, Signed, read_id, read_positive, read_signed};

/// The most bytes that a line may have without its line end.
const LONGEST_LINE: usize = 255;

/// What a line says, given without its line feed. A carriage return at its end is dropped.
pub fn read_line(bytes: &[u8]) -> Query
    ensures { line_of result ≡ line bytes.now }
{
    let bare = without_return(bytes);
    if bare.len() > LONGEST_LINE {
        Query::Long
    } else {
        read_short_line(bare)
    }
}

/// The line without a carriage return at its end.
fn without_return(bytes: &[u8]) -> &[u8]
    ensures { result.now ≡ without_cr bytes.now }
{
    bytes.strip_suffix(b"\r").unwrap_or(bytes)
}

/// What a line says that is not too long.
fn read_short_line(bytes: &[u8]) -> Query
    ensures { line_of result ≡ short_line bytes.now }
{
    if is_spaces(bytes) || is_comment(bytes) {
        Query::Blank
    } else {
        read_query(bytes).unwrap_or(Query::Bad)
    }
}

/// Whether a line has spaces alone, or no byte.
fn is_spaces(bytes: &[u8]) -> bool
    ensures { result ≡ list_all (λ b. b == 32) bytes.now }
{
    bytes.iter().all(|b| *b == b' ')
}

/// Whether a line is a comment.
fn is_comment(bytes: &[u8]) -> bool
    ensures { result ≡ is_comment bytes.now }
{
    matches!(bytes, [b'#', ..])
}

/// The query that a line spells.
fn read_query(bytes: &[u8]) -> Option<Query>
    ensures { line_or_bad result ≡ ask_or_bad (query (words bytes.now)) }
{
    let (word, arguments) = split_word(bytes);
    let form = Form::of_word(word)?;
    match arguments {
        Some(arguments) => with_arguments(form, arguments),
        None => alone(form),
    }
}

/// The bytes before the first space, and those behind it.
fn split_word(bytes: &[u8]) -> (&[u8], Option<&[u8]>)
    ensures { MatchOption result.1 (words bytes.now ≡ result.0.now ∷ [])
        (λ rest. words bytes.now ≡ result.0.now ∷ words rest.now) }
{
    match first_space(bytes) {
        Some(at) => (&bytes[..at], Some(&bytes[at + 1..])),
        None => (bytes, None),
    }
}

/// The place of the first space.
fn first_space(bytes: &[u8]) -> Option<usize>
    ensures { result ≡ position (λ b. b == 32) bytes.now }
{
    bytes.iter().position(|b| *b == b' ')
}

/// The query of this form with nothing behind its word.
fn alone(form: Form) -> Option<Query>
    ensures { line_or_bad result ≡ ask_or_bad (word_query form) }
{
    match form {
        Form::Counts => Some(Query::Counts),
        _ => None,
    }
}

/// The query of this form with this text behind its word and a space.
fn with_arguments(form: Form, text: &[u8]) -> Option<Query>
    ensures { line_or_bad result ≡ ask_or_bad (form_query form text.now) }
{
    match form {
        Form::Node => Some(Query::Node(NodeId(read_positive(text)?))),
        Form::Ring => Some(Query::Ring(read_edge(text)?)),
        Form::Next => Some(Query::Next(read_edge(text)?)),
        Form::Ends => Some(Query::Ends(read_edge(text)?)),
        Form::Sides => Some(Query::Sides(read_edge(text)?)),
        Form::Face => Some(Query::Face(FaceId(read_id(text)?))),
        Form::Adjacent => Some(Query::Adjacent(FaceId(read_id(text)?))),
        Form::Contains => Some(Query::Contains(NodeId(read_positive(text)?))),
        Form::Islands => Some(Query::Islands(FaceId(read_id(text)?))),
        Form::Regions => Some(Query::Regions(FaceId(read_id(text)?))),
        Form::Common => read_two_faces(text),
        Form::Counts => None,
    }
}

/// The signed edge that a text spells.
fn read_edge(text: &[u8]) -> Option<Signed>
    ensures { result ≡ signed_number text.now }
{
    Signed::new(read_signed(text)?)
}

/// The query for two faces with a space between them.
fn read_two_faces(text: &[u8]) -> Option<Query>
    ensures { line_or_bad result ≡ ask_or_bad (two_faces (words text.now)) }
{
    let (face, other) = split_word(text);
    Some(Query::Common(FaceId(read_id(face)?), FaceId(read_id(other?)?)))
}
