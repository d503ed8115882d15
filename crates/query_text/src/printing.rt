//! The texts that answers are made of.

ghost use Rattle.std.specs.Prelude.{◌≡◌, ◌+◌, ◌≤◌, ◌++◌, length, codes};
ghost use Rattle.topo_base.specs.Script.{item_text, text};
ghost use Rattle.topo_base.specs.Script.Item.{Island_node, Number, Signed_edge};
ghost use Rattle.query_text.specs.Lines.{IfAsk, IsAsk, line_of};
ghost use Rattle.query_text.specs.Forms.{arguments_of, form_of};

use crate::form::Form;
use crate::query::Query;
use arrayvec::ArrayVec;
use itoa::Buffer;
use topo_base::{IdNumber, NodeId, Signed};

/// The beginning of an answer: the query's text and a colon.
pub fn head(query: &Query) -> ArrayVec<u8, 64>
    requires { IsAsk (line_of query.now) }
    ensures { IfAsk (line_of query.now) (λ q. result.items ≡ text q ++ codes ":") }
{
    let mut head = ArrayVec::new();
    head.try_extend_from_slice(form(query).word()).unwrap();
    head.try_extend_from_slice(arguments(query).as_slice())
        .unwrap();
    head.push(b':');
    head
}

/// A signed edge as an item of an answer: a space and its number, with `-` where it is walked back.
pub fn signed_item(edge: Signed) -> ArrayVec<u8, 24>
    ensures { result.items ≡ item_text (Signed_edge edge) }
{
    item(b" ", Buffer::new().format(edge.value()))
}

/// A number as an item of an answer: a space and the number.
pub fn number_item(number: IdNumber) -> ArrayVec<u8, 24>
    ensures { result.items ≡ item_text (Number number) }
{
    item(b" ", Buffer::new().format(number))
}

/// An isolated node as an item of an answer: a space, `n` and its id.
pub fn node_item(node: NodeId) -> ArrayVec<u8, 24>
    ensures { result.items ≡ item_text (Island_node node.0) }
{
    item(b" n", Buffer::new().format(node.0))
}

/// These bytes and the text of a number.
fn item(front: &[u8], number: &str) -> ArrayVec<u8, 24>
    requires { length front.now + length number.now ≤ 24 }
    ensures { result.items ≡ front.now ++ number.now }
{
    let mut item = ArrayVec::new();
    item.try_extend_from_slice(front).unwrap();
    item.try_extend_from_slice(number.as_bytes()).unwrap();
    item
}

/// The form of a query.
fn form(query: &Query) -> Form
    requires { IsAsk (line_of query.now) }
    ensures { IfAsk (line_of query.now) (λ q. result ≡ form_of q) }
{
    match query {
        Query::Node(_) => Form::Node,
        Query::Ring(_) => Form::Ring,
        Query::Next(_) => Form::Next,
        Query::Ends(_) => Form::Ends,
        Query::Sides(_) => Form::Sides,
        Query::Face(_) => Form::Face,
        Query::Adjacent(_) => Form::Adjacent,
        Query::Contains(_) => Form::Contains,
        Query::Islands(_) => Form::Islands,
        Query::Regions(_) => Form::Regions,
        Query::Common(_, _) => Form::Common,
        Query::Counts => Form::Counts,
        Query::Blank | Query::Bad | Query::Long => unreachable!(),
    }
}

/// The text of a query behind its word.
fn arguments(query: &Query) -> ArrayVec<u8, 48>
    requires { IsAsk (line_of query.now) }
    ensures { IfAsk (line_of query.now) (λ q. result.items ≡ arguments_of q) }
{
    let mut arguments = ArrayVec::new();
    match query {
        Query::Node(node) | Query::Contains(node) => {
            arguments
                .try_extend_from_slice(number_item(node.0).as_slice())
                .unwrap();
        }
        Query::Ring(edge) | Query::Next(edge) | Query::Ends(edge) | Query::Sides(edge) => {
            arguments
                .try_extend_from_slice(signed_item(*edge).as_slice())
                .unwrap();
        }
        Query::Face(face) | Query::Adjacent(face) | Query::Islands(face) | Query::Regions(face) => {
            arguments
                .try_extend_from_slice(number_item(face.0).as_slice())
                .unwrap();
        }
        Query::Common(face, other) => {
            arguments
                .try_extend_from_slice(number_item(face.0).as_slice())
                .unwrap();
            arguments
                .try_extend_from_slice(number_item(other.0).as_slice())
                .unwrap();
        }
        Query::Counts => {}
        Query::Blank | Query::Bad | Query::Long => unreachable!(),
    }
    arguments
}
