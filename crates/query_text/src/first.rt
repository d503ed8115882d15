//! The first line of a script: a plain one, such as most are, is read in one pass to its line feed.

ghost use Rattle.std.specs.Prelude.{◌≡◌, ◌<◌, ◌≤◌, ◌^◌, ◌∷◌, ◌++◌, Some, IfSome, MatchOption, length, slice_index, take};
ghost use Rattle.topo_base.specs.Script.{line};
ghost use Rattle.topo_base.specs.Spelling.{digits_behind, positive_number, signed_number};
ghost use Rattle.query_text.specs.Forms.{word_of};
ghost use Rattle.query_text.specs.Lines.{HasNoFeed, IsTextOf, line_of};

use crate::form::Form;
use crate::query::Query;
use crate::reading::read_line;
use memchr::memchr;
use topo_base::{FaceId, IdNumber, NodeId, Signed, SignedNumber};

/// The first line of a script: how many bytes it has before its line feed, and what it says.
#[derive(Clone, Copy, Debug, PartialEq, Eq)]
pub struct FirstLine {
    pub end: usize,
    pub query: Query,
}

impl Default for FirstLine {
    /// No bytes, which say nothing.
    fn default() -> FirstLine {
        FirstLine {
            end: 0,
            query: Query::Blank,
        }
    }
}

/// A number, and how many digits spell it.
#[derive(Clone, Copy)]
struct SpelledNumber {
    len: usize,
    number: IdNumber,
}

/// A signed edge, and how many bytes spell it.
#[derive(Clone, Copy)]
struct SpelledEdge {
    len: usize,
    edge: Signed,
}

/// More digits than a number has that is read here: one of fewer is an id, whatever its digits are.
const MANY_DIGITS: usize = 19;

/// The number that eight bytes spell, where all are digits. All are looked at, with no branch between them.
fn eight_digits(bytes: &[u8; 8]) -> Option<IdNumber>
    ensures number { result ≡ digits_behind 0 bytes.now }
    ensures small { IfSome result (λ number. number < 10 ^ 8) }
{
    let mut digits = true;
    for byte in bytes {
        digits &= byte.is_ascii_digit();
    }
    if !digits {
        return None;
    }
    let mut number = 0;
    for byte in bytes {
        number = 10 * number + IdNumber::from(*byte - b'0');
    }
    Some(number)
}

/// The number that the first eight bytes spell, where there are so many and all are digits.
fn first_eight(bytes: &[u8]) -> Option<IdNumber>
    ensures within { IfSome result (λ number. 8 ≤ length bytes.now) }
    ensures number { IfSome result (λ number. digits_behind 0 (take 8 bytes.now) ≡ Some number) }
    ensures small { IfSome result (λ number. number < 10 ^ 8) }
{
    eight_digits(bytes.first_chunk::<8>()?)
}

/// The digits in front that are read at once: eight, or none.
fn front_digits(bytes: &[u8]) -> SpelledNumber
    ensures within { result.len ≤ length bytes.now }
    ensures number { digits_behind 0 (take result.len bytes.now) ≡ Some result.number }
    ensures small { result.number < 10 ^ result.len }
{
    match first_eight(bytes) {
        Some(number) => SpelledNumber { len: 8, number },
        None => SpelledNumber { len: 0, number: 0 },
    }
}

/// The number that digits spell from the first byte to a line feed, where they are fewer than many.
fn ended_number(bytes: &[u8]) -> Option<SpelledNumber>
    ensures within { IfSome result (λ found. found.len < length bytes.now) }
    ensures feed { IfSome result (λ found. slice_index bytes.now found.len ≡ 10) }
    ensures number { IfSome result (λ found. positive_number (take found.len bytes.now) ≡ Some found.number) }
{
    let few = bytes.len().min(MANY_DIGITS);
    let front = front_digits(bytes);
    let mut number = front.number;
    for len in front.len..few {
        let byte = bytes[len];
        if !byte.is_ascii_digit() {
            return if byte == b'\n' && number > 0 && bytes[0] != b'0' {
                Some(SpelledNumber { len, number })
            } else {
                None
            };
        }
        number = 10 * number + IdNumber::from(byte - b'0');
    }
    None
}

/// The signed edge that is spelled from the first byte to a line feed.
fn ended_edge(bytes: &[u8]) -> Option<SpelledEdge>
    ensures within { IfSome result (λ found. found.len < length bytes.now) }
    ensures feed { IfSome result (λ found. slice_index bytes.now found.len ≡ 10) }
    ensures edge { IfSome result (λ found. signed_number (take found.len bytes.now) ≡ Some found.edge) }
{
    match bytes {
        [b'-', digits @ ..] => {
            let found = ended_number(digits)?;
            let edge = Signed::new(-SignedNumber::try_from(found.number).ok()?)?;
            Some(SpelledEdge {
                len: found.len + 1,
                edge,
            })
        }
        _ => {
            let found = ended_number(bytes)?;
            let edge = Signed::new(SignedNumber::try_from(found.number).ok()?)?;
            Some(SpelledEdge {
                len: found.len,
                edge,
            })
        }
    }
}

/// The form whose word and a space begin a script, and what stands behind these.
fn plain_word(script: &[u8]) -> Option<(Form, &[u8])>
    ensures { IfSome result (λ found. script.now ≡ word_of found.0 ++ 32 ∷ found.1.now) }
{
    match script {
        [b'n', b'o', b'd', b'e', b' ', rest @ ..] => Some((Form::Node, rest)),
        [b'r', b'i', b'n', b'g', b' ', rest @ ..] => Some((Form::Ring, rest)),
        [b'n', b'e', b'x', b't', b' ', rest @ ..] => Some((Form::Next, rest)),
        [b'e', b'n', b'd', b's', b' ', rest @ ..] => Some((Form::Ends, rest)),
        [b's', b'i', b'd', b'e', b's', b' ', rest @ ..] => Some((Form::Sides, rest)),
        [b'f', b'a', b'c', b'e', b' ', rest @ ..] => Some((Form::Face, rest)),
        [
            b'a',
            b'd',
            b'j',
            b'a',
            b'c',
            b'e',
            b'n',
            b't',
            b' ',
            rest @ ..,
        ] => { Some((Form::Adjacent, rest)) }
        [
            b'c',
            b'o',
            b'n',
            b't',
            b'a',
            b'i',
            b'n',
            b's',
            b' ',
            rest @ ..,
        ] => { Some((Form::Contains, rest)) }
        [b'i', b's', b'l', b'a', b'n', b'd', b's', b' ', rest @ ..] => Some((Form::Islands, rest)),
        _ => None,
    }
}

/// The query of this form whose id begins these bytes, which stand behind its word and a space, and ends at a line feed.
/// Its end is counted from the id on.
fn plain_query(form: Form, rest: &[u8]) -> Option<FirstLine>
    ensures within { IfSome result (λ found. found.end < length rest.now) }
    ensures feed { IfSome result (λ found. slice_index rest.now found.end ≡ 10) }
    ensures text { IfSome result (λ found. IsTextOf found.query (word_of form ++ 32 ∷ take found.end rest.now)) }
{
    match form {
        Form::Node => {
            let SpelledNumber { len, number } = ended_number(rest)?;
            Some(FirstLine {
                end: len,
                query: Query::Node(NodeId(number)),
            })
        }
        Form::Ring => {
            let SpelledEdge { len, edge } = ended_edge(rest)?;
            Some(FirstLine {
                end: len,
                query: Query::Ring(edge),
            })
        }
        Form::Next => {
            let SpelledEdge { len, edge } = ended_edge(rest)?;
            Some(FirstLine {
                end: len,
                query: Query::Next(edge),
            })
        }
        Form::Ends => {
            let SpelledEdge { len, edge } = ended_edge(rest)?;
            Some(FirstLine {
                end: len,
                query: Query::Ends(edge),
            })
        }
        Form::Sides => {
            let SpelledEdge { len, edge } = ended_edge(rest)?;
            Some(FirstLine {
                end: len,
                query: Query::Sides(edge),
            })
        }
        Form::Face => {
            let SpelledNumber { len, number } = ended_number(rest)?;
            Some(FirstLine {
                end: len,
                query: Query::Face(FaceId(number)),
            })
        }
        Form::Adjacent => {
            let SpelledNumber { len, number } = ended_number(rest)?;
            Some(FirstLine {
                end: len,
                query: Query::Adjacent(FaceId(number)),
            })
        }
        Form::Contains => {
            let SpelledNumber { len, number } = ended_number(rest)?;
            Some(FirstLine {
                end: len,
                query: Query::Contains(NodeId(number)),
            })
        }
        Form::Islands => {
            let SpelledNumber { len, number } = ended_number(rest)?;
            Some(FirstLine {
                end: len,
                query: Query::Islands(FaceId(number)),
            })
        }
        Form::Regions | Form::Common | Form::Counts => None,
    }
}

/// The first line, where it is a plain one: a word, a space, an id from 1 on and a line feed, and nothing else.
fn plain_line(script: &[u8]) -> Option<FirstLine>
    ensures { IfSome result (λ found. (found.end < length script.now) × (slice_index script.now found.end ≡ 10)
        × HasNoFeed found.end script.now × (line_of found.query ≡ line (take found.end script.now))) }
{
    let (form, rest) = plain_word(script)?;
    let behind = plain_query(form, rest)?;
    Some(FirstLine {
        end: script.len() - rest.len() + behind.end,
        query: behind.query,
    })
}

/// The first line: its line feed is searched, and it is read then.
fn searched_line(script: &[u8]) -> Option<FirstLine>
    ensures { MatchOption result (HasNoFeed (length script.now) script.now)
        (λ found. (found.end < length script.now) × (slice_index script.now found.end ≡ 10)
        × HasNoFeed found.end script.now × (line_of found.query ≡ line (take found.end script.now))) }
{
    let end = memchr(b'\n', script)?;
    Some(FirstLine {
        end,
        query: read_line(&script[..end]),
    })
}

/// The first line of a script, where it ends in these bytes.
#[inline]
pub fn first_line(script: &[u8]) -> Option<FirstLine>
    ensures { MatchOption result (HasNoFeed (length script.now) script.now)
        (λ found. (found.end < length script.now) × (slice_index script.now found.end ≡ 10)
        × HasNoFeed found.end script.now × (line_of found.query ≡ line (take found.end script.now))) }
{
    match plain_line(script) {
        Some(line) => Some(line),
        None => searched_line(script),
    }
}
