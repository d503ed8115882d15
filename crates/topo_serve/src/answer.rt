//! The answer to one line.

ghost use Rattle.std.specs.Prelude.{◌≡◌, ◌<◌, ◌≤◌, ◌+◌, ◌++◌, ◌∷◌, [], map, flat_map, length, unwrap_or, codes, OnOk, IfOk, IsTrue};
ghost use Rattle.topo_base.specs.Script as script;
ghost use Rattle.topo_base.specs.Script.{item_text, line as line_said, without_cr};
ghost use Rattle.plane_model.specs.Answers.{items, after_colon, answer, answer_to};
ghost use Rattle.query_text.specs.Lines.{line_of, IsAsk, IfAsk};
ghost use Rattle.scratch_region.specs.Marks.{room_of, IsEmpty};
ghost use Rattle.pemb_file.specs.Served.{contents_of_view};
ghost use Rattle.navigate.specs.Bound.{served_map};
ghost use Rattle.navigate.specs.AdjacentWalk as across;
ghost use Rattle.topo_serve.specs.Gathering.{out_at, Writes};
ghost use Rattle.topo_serve.specs.Serving.{words_to_answer, found_by_reads, words_of_query, found_for};

use crate::gathered::{Gathered, gather, gather_both};
use crate::item::{Item, gather_item};
use crate::items::{list_behind, list_known, list_numbers};
use bit_words::Steps;
use navigate::{
    AdjacentWalk, FirstEdges, FirstFaces, adjacent_walk_begun, common, containing, ends,
    face_walk_begun, island_walk, next, node_walk_begun, region_walk, ring_walk, sides,
};
use pemb_file::Served;
use ports::{Failed, Sink};
use query_text::{Query, read_line};
use scratch_region::Marks;
use std::sync::ledger::Ledger;
use topo_base::{FaceId, IdNumber, NodeId, Signed};

/// The signed edges that leave a node.
#[inline(never)]
fn answer_node<K: Sink, C: Ledger>(
    served: &Served<'_>,
    node: NodeId,
    out: &mut K,
    text: &mut Gathered,
    steps: &mut Steps<C>,
) -> Result<(), Failed>
    ensures writes { Writes result (out_at (K.held out.old) (K.faults out.old) text.old.items)
        (out_at (K.held out.new) (K.faults out.new) text.new.items)
        (after_colon (items (served_map served.now) (script.Query.Node node.0))) }
    ensures least { OnOk result (steps.old + length (unwrap_or (items (served_map served.now) (script.Query.Node node.0))
        []) ≤ steps.new) }
    ensures grows { steps.old ≤ steps.new }
    ensures paid { steps.new ≤ steps.old + words_of_query (served_map served.now) (script.Query.Node node.0) }
{
    let mut edges = FirstEdges::none();
    match node_walk_begun(*served, node, &mut edges, steps) {
        Some(mut walk) => list_behind(edges.as_slice(), &mut walk, out, text, steps),
        None => gather(out, text, b" unknown"),
    }
}

/// The signed edges of a ring.
#[inline(never)]
fn answer_ring<K: Sink, C: Ledger>(
    served: &Served<'_>,
    edge: Signed,
    out: &mut K,
    text: &mut Gathered,
    steps: &mut Steps<C>,
) -> Result<(), Failed>
    ensures writes { Writes result (out_at (K.held out.old) (K.faults out.old) text.old.items)
        (out_at (K.held out.new) (K.faults out.new) text.new.items)
        (after_colon (items (served_map served.now) (script.Query.Ring edge))) }
    ensures least { OnOk result (steps.old + length (unwrap_or (items (served_map served.now) (script.Query.Ring edge))
        []) ≤ steps.new) }
    ensures grows { steps.old ≤ steps.new }
    ensures paid { steps.new ≤ steps.old + words_of_query (served_map served.now) (script.Query.Ring edge) }
{
    let mut walk = ring_walk(*served, edge, steps);
    list_known(&mut walk, out, text, steps)
}

/// The signed edge that follows.
fn answer_next<K: Sink, C: Ledger>(
    served: &Served<'_>,
    edge: Signed,
    out: &mut K,
    text: &mut Gathered,
    steps: &mut Steps<C>,
) -> Result<(), Failed>
    ensures writes { Writes result (out_at (K.held out.old) (K.faults out.old) text.old.items)
        (out_at (K.held out.new) (K.faults out.new) text.new.items)
        (after_colon (items (served_map served.now) (script.Query.Next edge))) }
    ensures least { OnOk result (steps.old + length (unwrap_or (items (served_map served.now) (script.Query.Next edge))
        []) ≤ steps.new) }
    ensures grows { steps.old ≤ steps.new }
    ensures paid { steps.new ≤ steps.old + words_of_query (served_map served.now) (script.Query.Next edge) }
{
    match next(*served, edge, steps) {
        Some(next) => gather_item(out, text, Item::Edge(next)),
        None => gather(out, text, b" unknown"),
    }
}

/// The nodes at both ends.
fn answer_ends<K: Sink, C: Ledger>(
    served: &Served<'_>,
    edge: Signed,
    out: &mut K,
    text: &mut Gathered,
    steps: &mut Steps<C>,
) -> Result<(), Failed>
    ensures writes { Writes result (out_at (K.held out.old) (K.faults out.old) text.old.items)
        (out_at (K.held out.new) (K.faults out.new) text.new.items)
        (after_colon (items (served_map served.now) (script.Query.Ends edge))) }
    ensures least { OnOk result (steps.old + length (unwrap_or (items (served_map served.now) (script.Query.Ends edge))
        []) ≤ steps.new) }
    ensures grows { steps.old ≤ steps.new }
    ensures paid { steps.new ≤ steps.old + words_of_query (served_map served.now) (script.Query.Ends edge) }
{
    match ends(*served, edge, steps) {
        Some((from, to)) => list_numbers(out, text, &[from.0, to.0]),
        None => gather(out, text, b" unknown"),
    }
}

/// The faces on both sides.
fn answer_sides<K: Sink, C: Ledger>(
    served: &Served<'_>,
    edge: Signed,
    out: &mut K,
    text: &mut Gathered,
    steps: &mut Steps<C>,
) -> Result<(), Failed>
    ensures writes { Writes result (out_at (K.held out.old) (K.faults out.old) text.old.items)
        (out_at (K.held out.new) (K.faults out.new) text.new.items)
        (after_colon (items (served_map served.now) (script.Query.Sides edge))) }
    ensures least { OnOk result (steps.old + length (unwrap_or (items (served_map served.now) (script.Query.Sides edge))
        []) ≤ steps.new) }
    ensures grows { steps.old ≤ steps.new }
    ensures paid { steps.new ≤ steps.old + words_of_query (served_map served.now) (script.Query.Sides edge) }
{
    match sides(*served, edge, steps) {
        Some((left, right)) => list_numbers(out, text, &[left.0, right.0]),
        None => gather(out, text, b" unknown"),
    }
}

/// The signed edges of a face.
#[inline(never)]
fn answer_face<K: Sink, C: Ledger>(
    served: &Served<'_>,
    face: FaceId,
    out: &mut K,
    text: &mut Gathered,
    steps: &mut Steps<C>,
) -> Result<(), Failed>
    ensures writes { Writes result (out_at (K.held out.old) (K.faults out.old) text.old.items)
        (out_at (K.held out.new) (K.faults out.new) text.new.items)
        (after_colon (items (served_map served.now) (script.Query.Face face.0))) }
    ensures least { OnOk result (steps.old + length (unwrap_or (items (served_map served.now) (script.Query.Face face.0))
        []) ≤ steps.new) }
    ensures grows { steps.old ≤ steps.new }
    ensures paid { steps.new ≤ steps.old + words_of_query (served_map served.now) (script.Query.Face face.0) }
{
    let mut edges = FirstEdges::none();
    match face_walk_begun(*served, face, &mut edges, steps) {
        Some(mut walk) => list_behind(edges.as_slice(), &mut walk, out, text, steps),
        None => gather(out, text, b" unknown"),
    }
}

/// The components and isolated nodes in a face.
#[inline(never)]
fn answer_islands<K: Sink, C: Ledger>(
    served: &Served<'_>,
    face: FaceId,
    out: &mut K,
    text: &mut Gathered,
    steps: &mut Steps<C>,
) -> Result<(), Failed>
    ensures writes { Writes result (out_at (K.held out.old) (K.faults out.old) text.old.items)
        (out_at (K.held out.new) (K.faults out.new) text.new.items)
        (after_colon (items (served_map served.now) (script.Query.Islands face.0))) }
    ensures least { OnOk result (steps.old + length (unwrap_or (items (served_map served.now) (script.Query.Islands face.0))
        []) ≤ steps.new) }
    ensures grows { steps.old ≤ steps.new }
    ensures paid { steps.new ≤ steps.old + words_of_query (served_map served.now) (script.Query.Islands face.0) }
{
    let mut walk = island_walk(*served, face, steps);
    list_known(&mut walk, out, text, steps)
}

/// The regions that a face is in.
#[inline(never)]
fn answer_regions<K: Sink, C: Ledger>(
    served: &Served<'_>,
    face: FaceId,
    out: &mut K,
    text: &mut Gathered,
    steps: &mut Steps<C>,
) -> Result<(), Failed>
    ensures writes { Writes result (out_at (K.held out.old) (K.faults out.old) text.old.items)
        (out_at (K.held out.new) (K.faults out.new) text.new.items)
        (after_colon (items (served_map served.now) (script.Query.Regions face.0))) }
    ensures least { OnOk result (steps.old + length (unwrap_or (items (served_map served.now) (script.Query.Regions face.0))
        []) ≤ steps.new) }
    ensures grows { steps.old ≤ steps.new }
    ensures paid { steps.new ≤ steps.old + words_of_query (served_map served.now) (script.Query.Regions face.0) }
{
    let mut walk = region_walk(*served, face, steps);
    list_known(&mut walk, out, text, steps)
}

/// The face that contains a node or its component.
fn answer_contains<K: Sink, C: Ledger>(
    served: &Served<'_>,
    node: NodeId,
    out: &mut K,
    text: &mut Gathered,
    steps: &mut Steps<C>,
) -> Result<(), Failed>
    ensures writes { Writes result (out_at (K.held out.old) (K.faults out.old) text.old.items)
        (out_at (K.held out.new) (K.faults out.new) text.new.items)
        (after_colon (items (served_map served.now) (script.Query.Contains node.0))) }
    ensures least { OnOk result (steps.old + length (unwrap_or (items (served_map served.now)
        (script.Query.Contains node.0)) []) ≤ steps.new) }
    ensures grows { steps.old ≤ steps.new }
    ensures paid { steps.new ≤ steps.old + words_of_query (served_map served.now) (script.Query.Contains node.0) }
{
    match containing(*served, node, steps) {
        Some(face) => list_numbers(out, text, &[face.0]),
        None => gather(out, text, b" unknown"),
    }
}

/// The first region of one face that the other lies in too.
#[inline(never)]
fn answer_common<K: Sink, C: Ledger>(
    served: &Served<'_>,
    first: FaceId,
    second: FaceId,
    out: &mut K,
    text: &mut Gathered,
    steps: &mut Steps<C>,
) -> Result<(), Failed>
    ensures writes { Writes result (out_at (K.held out.old) (K.faults out.old) text.old.items)
        (out_at (K.held out.new) (K.faults out.new) text.new.items)
        (after_colon (items (served_map served.now) (script.Query.Common first.0 second.0))) }
    ensures least { OnOk result (steps.old + length (unwrap_or (items (served_map served.now)
        (script.Query.Common first.0 second.0)) []) ≤ steps.new) }
    ensures grows { steps.old ≤ steps.new }
    ensures paid { steps.new ≤ steps.old + words_of_query (served_map served.now)
        (script.Query.Common first.0 second.0) }
{
    match common(*served, first, second, steps) {
        Some(Some(region)) => list_numbers(out, text, &[region.0]),
        Some(None) => Ok(()),
        None => gather(out, text, b" unknown"),
    }
}

/// The numbers of nodes, edges, faces, components and regions.
fn answer_counts<K: Sink>(
    served: &Served<'_>,
    out: &mut K,
    text: &mut Gathered,
) -> Result<(), Failed>
    ensures { Writes result (out_at (K.held out.old) (K.faults out.old) text.old.items)
        (out_at (K.held out.new) (K.faults out.new) text.new.items)
        (after_colon (items (served_map served.now) script.Query.Counts)) }
{
    let counts = served.counts();
    list_numbers(
        out,
        text,
        &[
            counts.nodes as IdNumber,
            counts.edges as IdNumber,
            counts.faces as IdNumber,
            counts.components as IdNumber,
            counts.regions as IdNumber,
        ],
    )
}

/// The faces that a walk gives, to its end.
fn list_across<K: Sink, C: Ledger>(
    walk: &mut AdjacentWalk<'_>,
    marks: &mut Marks<'_>,
    out: &mut K,
    text: &mut Gathered,
    steps: &mut Steps<C>,
) -> Result<(), Failed>
    requires room { length (across.contents_in walk.old).faces < room_of marks.old }
    requires marks { across.HoldsGiven walk.old marks.old }
    ensures writes { Writes result (out_at (K.held out.old) (K.faults out.old) text.old.items)
        (out_at (K.held out.new) (K.faults out.new) text.new.items)
        (flat_map item_text (map script.Number (across.rest walk.old))) }
    ensures contents { across.contents_in walk.new ≡ across.contents_in walk.old }
    ensures room { room_of marks.new ≡ room_of marks.old }
    ensures marks { across.HoldsGiven walk.new marks.new }
    ensures least { OnOk result (steps.old + length (across.rest walk.old) ≤ steps.new) }
    ensures grows { steps.old ≤ steps.new }
    ensures paid { steps.new + across.allowance walk.new ≤ steps.old + across.allowance walk.old }
{
    while let Some(face) = walk.step(marks, steps) {
        gather_item(out, text, Item::Number(face.0))?;
    }
    Ok(())
}

/// These faces, and then those that a walk gives, to its end.
fn list_beside<K: Sink, C: Ledger>(
    faces: &[IdNumber],
    walk: &mut AdjacentWalk<'_>,
    marks: &mut Marks<'_>,
    out: &mut K,
    text: &mut Gathered,
    steps: &mut Steps<C>,
) -> Result<(), Failed>
    requires room { length (across.contents_in walk.old).faces < room_of marks.old }
    requires marks { across.HoldsGiven walk.old marks.old }
    ensures writes { Writes result (out_at (K.held out.old) (K.faults out.old) text.old.items)
        (out_at (K.held out.new) (K.faults out.new) text.new.items)
        (flat_map item_text (map script.Number (faces.now ++ across.rest walk.old))) }
    ensures contents { across.contents_in walk.new ≡ across.contents_in walk.old }
    ensures room { room_of marks.new ≡ room_of marks.old }
    ensures marks { across.HoldsGiven walk.new marks.new }
    ensures least { OnOk result (steps.old + length (across.rest walk.old) ≤ steps.new) }
    ensures grows { steps.old ≤ steps.new }
    ensures paid { steps.new + across.allowance walk.new ≤ steps.old + across.allowance walk.old }
{
    list_numbers(out, text, faces)?;
    list_across(walk, marks, out, text, steps)
}

/// These faces, and then those that a walk still gives. The marks are empty again where it ends, also by a fault.
fn list_and_close<K: Sink, C: Ledger>(
    faces: &[IdNumber],
    mut walk: AdjacentWalk<'_>,
    marks: &mut Marks<'_>,
    out: &mut K,
    text: &mut Gathered,
    steps: &mut Steps<C>,
) -> Result<(), Failed>
    requires room { length (across.contents_in walk).faces < room_of marks.old }
    requires marks { across.HoldsGiven walk marks.old }
    ensures room { room_of marks.new ≡ room_of marks.old }
    ensures empty { IsEmpty marks.new }
    ensures writes { Writes result (out_at (K.held out.old) (K.faults out.old) text.old.items)
        (out_at (K.held out.new) (K.faults out.new) text.new.items)
        (flat_map item_text (map script.Number (faces.now ++ across.rest walk.entry))) }
    ensures least { OnOk result (steps.old + length (across.rest walk.entry) ≤ steps.new) }
    ensures grows { steps.old ≤ steps.new }
    ensures paid { steps.new ≤ steps.old + across.allowance walk.entry }
{
    let listed = list_beside(faces, &mut walk, marks, out, text, steps);
    walk.close(marks, steps);
    listed
}

/// The faces across the edges of a face. The marks are empty again where it ends, also by a fault.
#[inline(never)]
fn answer_adjacent<K: Sink, C: Ledger>(
    served: &Served<'_>,
    face: FaceId,
    marks: &mut Marks<'_>,
    out: &mut K,
    text: &mut Gathered,
    steps: &mut Steps<C>,
) -> Result<(), Failed>
    requires room { length (contents_of_view served.now).faces < room_of marks.old }
    requires empty { IsEmpty marks.old }
    ensures room { room_of marks.new ≡ room_of marks.old }
    ensures empty { IsEmpty marks.new }
    ensures writes { Writes result (out_at (K.held out.old) (K.faults out.old) text.old.items)
        (out_at (K.held out.new) (K.faults out.new) text.new.items)
        (after_colon (items (served_map served.now) (script.Query.Adjacent face.0))) }
    ensures least { OnOk result (steps.old + length (unwrap_or (items (served_map served.now)
        (script.Query.Adjacent face.0)) []) ≤ steps.new) }
    ensures grows { steps.old ≤ steps.new }
    ensures paid { steps.new ≤ steps.old + words_of_query (served_map served.now) (script.Query.Adjacent face.0) }
{
    let mut faces = FirstFaces::new();
    match adjacent_walk_begun(*served, face, &mut faces, marks, steps) {
        Some(walk) => list_and_close(faces.as_slice(), walk, marks, out, text, steps),
        None => gather(out, text, b" unknown"),
    }
}

/// What follows the colon in the answer to a query.
fn answer_items<K: Sink, C: Ledger>(
    served: &Served<'_>,
    query: &Query,
    marks: &mut Marks<'_>,
    out: &mut K,
    text: &mut Gathered,
    steps: &mut Steps<C>,
) -> Result<(), Failed>
    requires ask { IsAsk (line_of query.now) }
    requires room { length (contents_of_view served.now).faces < room_of marks.old }
    requires empty { IsEmpty marks.old }
    ensures room { room_of marks.new ≡ room_of marks.old }
    ensures empty { IsEmpty marks.new }
    ensures writes { IfAsk (line_of query.now) (λ q. Writes result
        (out_at (K.held out.old) (K.faults out.old) text.old.items)
        (out_at (K.held out.new) (K.faults out.new) text.new.items) (after_colon (items (served_map served.now) q))) }
    ensures least { IfAsk (line_of query.now) (λ q. OnOk result (steps.old + found_for (served_map served.now) q
        ≤ steps.new)) }
    ensures grows { steps.old ≤ steps.new }
    ensures paid { IfAsk (line_of query.now) (λ q. steps.new ≤ steps.old + words_of_query (served_map served.now) q) }
{
    match *query {
        Query::Node(node) => answer_node(served, node, out, text, steps),
        Query::Ring(edge) => answer_ring(served, edge, out, text, steps),
        Query::Next(edge) => answer_next(served, edge, out, text, steps),
        Query::Ends(edge) => answer_ends(served, edge, out, text, steps),
        Query::Sides(edge) => answer_sides(served, edge, out, text, steps),
        Query::Face(face) => answer_face(served, face, out, text, steps),
        Query::Adjacent(face) => answer_adjacent(served, face, marks, out, text, steps),
        Query::Contains(node) => answer_contains(served, node, out, text, steps),
        Query::Islands(face) => answer_islands(served, face, out, text, steps),
        Query::Regions(face) => answer_regions(served, face, out, text, steps),
        Query::Common(first, second) => answer_common(served, first, second, out, text, steps),
        Query::Counts => answer_counts(served, out, text),
        Query::Blank | Query::Bad | Query::Long => unreachable!(),
    }
}

/// The line without a carriage return at its end.
fn without_return(line: &[u8]) -> &[u8]
    ensures { result.now ≡ without_cr line.now }
{
    line.strip_suffix(b"\r").unwrap_or(line)
}

/// The head of the answer to a line that asks a query: the line itself, without its carriage return, and a colon.
fn gather_head<K: Sink>(out: &mut K, text: &mut Gathered, line: &[u8]) -> Result<(), Failed>
    requires { IsAsk (line_said line.now) }
    ensures { Writes result (out_at (K.held out.old) (K.faults out.old) text.old.items)
        (out_at (K.held out.new) (K.faults out.new) text.new.items) (without_cr line.now ++ codes ":") }
{
    gather_both(out, text, without_return(line), b":")
}

/// The answer to a line that asks for what the map lacks.
pub(crate) fn answer_unknown<K: Sink>(
    line: &[u8],
    out: &mut K,
    text: &mut Gathered,
) -> Result<(), Failed>
    requires { IsAsk (line_said line.now) }
    ensures { Writes result (out_at (K.held out.old) (K.faults out.old) text.old.items)
        (out_at (K.held out.new) (K.faults out.new) text.new.items) (without_cr line.now ++ codes ": unknown\n") }
{
    gather_both(out, text, without_return(line), b": unknown\n")
}

/// The answer to a line that asks a query: its text, a colon, what follows it, and a line feed.
fn answer_query<K: Sink, C: Ledger>(
    served: &Served<'_>,
    line: &[u8],
    query: &Query,
    marks: &mut Marks<'_>,
    out: &mut K,
    text: &mut Gathered,
    steps: &mut Steps<C>,
) -> Result<(), Failed>
    requires said { line_of query.now ≡ line_said line.now }
    requires ask { IsAsk (line_of query.now) }
    requires room { length (contents_of_view served.now).faces < room_of marks.old }
    requires empty { IsEmpty marks.old }
    ensures room { room_of marks.new ≡ room_of marks.old }
    ensures empty { IsEmpty marks.new }
    ensures writes { Writes result (out_at (K.held out.old) (K.faults out.old) text.old.items)
        (out_at (K.held out.new) (K.faults out.new) text.new.items)
        (answer_to (served_map served.now) (line_of query.now)) }
    ensures least { IfAsk (line_of query.now) (λ q. OnOk result (steps.old + found_for (served_map served.now) q
        ≤ steps.new)) }
    ensures grows { steps.old ≤ steps.new }
    ensures paid { IfAsk (line_of query.now) (λ q. steps.new ≤ steps.old + words_of_query (served_map served.now) q) }
{
    gather_head(out, text, line)?;
    answer_items(served, query, marks, out, text, steps)?;
    gather(out, text, b"\n")
}

/// The answer to a line, given without its line feed, that says this.
pub(crate) fn answer_read<K: Sink, C: Ledger>(
    served: &Served<'_>,
    line: &[u8],
    query: &Query,
    marks: &mut Marks<'_>,
    out: &mut K,
    text: &mut Gathered,
    steps: &mut Steps<C>,
) -> Result<(), Failed>
    requires said { line_of query.now ≡ line_said line.now }
    requires room { length (contents_of_view served.now).faces < room_of marks.old }
    requires empty { IsEmpty marks.old }
    ensures room { room_of marks.new ≡ room_of marks.old }
    ensures empty { IsEmpty marks.new }
    ensures writes { Writes result (out_at (K.held out.old) (K.faults out.old) text.old.items)
        (out_at (K.held out.new) (K.faults out.new) text.new.items) (answer (served_map served.now) line.now) }
    ensures least { OnOk result (steps.old + found_by_reads (served_map served.now) line.now ≤ steps.new) }
    ensures grows { steps.old ≤ steps.new }
    ensures paid { steps.new ≤ steps.old + words_to_answer (served_map served.now) line.now }
{
    match *query {
        Query::Blank => Ok(()),
        Query::Bad => gather(out, text, b"bad\n"),
        Query::Long => gather(out, text, b"long\n"),
        _ => answer_query(served, line, query, marks, out, text, steps),
    }
}

/// Reads a line, given without its line feed, and answers it.
pub(crate) fn answer_line<K: Sink, C: Ledger>(
    served: &Served<'_>,
    line: &[u8],
    marks: &mut Marks<'_>,
    out: &mut K,
    text: &mut Gathered,
    steps: &mut Steps<C>,
) -> Result<(), Failed>
    requires room { length (contents_of_view served.now).faces < room_of marks.old }
    requires empty { IsEmpty marks.old }
    ensures room { room_of marks.new ≡ room_of marks.old }
    ensures empty { IsEmpty marks.new }
    ensures writes { Writes result (out_at (K.held out.old) (K.faults out.old) text.old.items)
        (out_at (K.held out.new) (K.faults out.new) text.new.items) (answer (served_map served.now) line.now) }
    ensures least { OnOk result (steps.old + found_by_reads (served_map served.now) line.now ≤ steps.new) }
    ensures grows { steps.old ≤ steps.new }
    ensures paid { steps.new ≤ steps.old + words_to_answer (served_map served.now) line.now }
{
    let query = read_line(line);
    answer_read(served, line, &query, marks, out, text, steps)
}
