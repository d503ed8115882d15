//! A shortest walk between two faces of an opened file, told as a line.

ghost use Rattle.std.specs.Prelude.{◌≡◌, ◌≤◌, ◌+◌, ◌*◌, [], ◌∷◌, ◌++◌, codes, flat_map, length, map, IfOk, OnOk, IsTrue};
ghost use Rattle.topo_base.specs.Script.{item_text};
ghost use Rattle.topo_base.specs.Script.Item.{Number};
ghost use Rattle.pemb_file.specs.Served.{contents_of_view};
ghost use Rattle.navigate.specs.Bound.{served_map};
ghost use Rattle.face_hops.specs.HopWalk.{allowance, moves_of, rest};
ghost use Rattle.face_hops.specs.Prices.{most_hop_words};
ghost use Rattle.topo_cli.specs.Text.{has_both_faces, hops_line, hops_text, moves_between};

use crate::counting::append_number;
use bit_words::Steps;
use face_hops::{Found, HopWalk, hop_walk};
use pemb_file::Served;
use scratch_region::Region;
use std::alloc::{AllocError, Global};
use std::sync::ledger::Ledger;
use topo_base::{FaceId, IdNumber};

/// Words for the two lists of a shortest walk, with a word each for face 0 and for each other face.
fn words_for_hops(alloc: Global, served: &Served<'_>) -> Result<Vec<u64>, AllocError>
    ensures room { IfOk result (λ words. length words.items ≡ 2 * (length (contents_of_view served.now).faces + 1)) }
    ensures few { IfOk result (λ words. length words.items ≤ 2147483647) }
{
    vec![in alloc; 0; 2 * (served.counts().faces as usize + 1)]
}

/// The beginning of the line: what was asked for, and a colon.
fn beginning(alloc: Global, from: IdNumber, to: IdNumber) -> Result<Vec<u8>, AllocError>
    ensures { IfOk result (λ line. line.items ≡ hops_text from to ++ codes ":") }
{
    Ok(format!(in alloc; "hops {from} {to}:")?.into_bytes())
}

/// Appends the faces of a walk, each behind a space.
fn append_faces<L: Ledger>(
    line: &mut Vec<u8>,
    walk: &mut HopWalk<'_, '_>,
    steps: &mut Steps<L>,
) -> Result<(), AllocError>
    ensures text { OnOk result (line.new.items ≡ line.old.items ++ flat_map item_text (map Number (rest walk.old))) }
    ensures least { OnOk result (steps.old + length (rest walk.old) ≤ steps.new + 1) }
    ensures most { steps.new ≤ steps.old + allowance walk.old }
    ensures grows { steps.old ≤ steps.new }
{
    while let Some(face) = walk.step(steps) {
        append_number(line, face.0)?;
    }
    Ok(())
}

/// Appends the moves and the faces of a walk, each behind a space, and ends the line.
fn append_walk<L: Ledger>(
    line: &mut Vec<u8>,
    walk: &mut HopWalk<'_, '_>,
    steps: &mut Steps<L>,
) -> Result<(), AllocError>
    ensures text { OnOk result (line.new.items ≡ line.old.items ++ flat_map item_text
        (map Number (moves_of walk.old ∷ rest walk.old)) ++ 10 ∷ []) }
    ensures least { OnOk result (steps.old + length (rest walk.old) ≤ steps.new + 1) }
    ensures most { steps.new ≤ steps.old + allowance walk.old }
    ensures grows { steps.old ≤ steps.new }
{
    append_number(line, IdNumber::from(walk.moves()))?;
    append_faces(line, walk, steps)?;
    line.push(b'\n')?;
    Ok(())
}

/// The line of the shortest walk from one face of an opened file to another. The words for its lists are taken before
/// the walk.
pub fn hops_line<L: Ledger>(
    alloc: Global,
    served: Served<'_>,
    from: FaceId,
    to: FaceId,
    steps: &mut Steps<L>,
) -> Result<Vec<u8>, AllocError>
    ensures line { IfOk result (λ line. line.items ≡ hops_line (served_map served.entry) from.0 to.0) }
    ensures least { OnOk result (IsTrue (has_both_faces (served_map served.entry) from.0 to.0)
        → steps.old + moves_between (served_map served.entry) from.0 to.0 ≤ steps.new) }
    ensures most { steps.new ≤ steps.old + most_hop_words (served_map served.entry) }
    ensures grows { steps.old ≤ steps.new }
{
    let mut words = words_for_hops(alloc, &served)?;
    let mut line = beginning(alloc, from.0, to.0)?;
    let room = Region::new(&mut words);
    match hop_walk(served, from, to, room, steps) {
        Found::Walk(mut walk) => append_walk(&mut line, &mut walk, steps)?,
        Found::Unknown => line.extend_from_slice(b" unknown\n")?,
        Found::Short(_) => unreachable!(),
    }
    Ok(line)
}
