//! The lines of one piece of a script.

ghost use Rattle.std.specs.Prelude.{◌≡◌, ◌<◌, ◌≤◌, ◌+◌, ◌++◌, [], flat_map, length, OnOk, IfOk};
ghost use Rattle.plane_model.specs.Answers.{answer};
ghost use Rattle.scratch_region.specs.Marks.{room_of, IsEmpty};
ghost use Rattle.pemb_file.specs.OpenFile.{contents_of_file};
ghost use Rattle.pemb_file.specs.Served.{contents_of_view};
ghost use Rattle.navigate.specs.Bound.{map_with, served_map};
ghost use Rattle.topo_serve.specs.Ahead.{texts, behind, AreNext};
ghost use Rattle.topo_serve.specs.Gathering.{out_at, Writes};
ghost use Rattle.topo_serve.specs.Pieces.{cut, ended_behind, open_behind, front_ended};
ghost use Rattle.topo_serve.specs.Serving.{over_lines, words_to_answer, words_of_line, found_by_reads};

use crate::ahead::{LineAhead, lines_from, look_up};
use crate::answer::{answer_line, answer_read, answer_unknown};
use crate::gathered::{Gathered, put_out};
use crate::line::{Line, go_on, line_end};
use crate::unknown::is_unknown;
use bit_words::Steps;
use pemb_file::{OpenFile, Served};
use ports::{Failed, Sink};
use query_text::first_line;
use scratch_region::Marks;
use std::sync::ledger::Ledger;

/// Answers the line of which the front is kept and these bytes are the rest, and forgets the front.
fn answer_ended<K: Sink, C: Ledger>(
    served: &Served<'_>,
    line: &mut Line,
    end: &[u8],
    marks: &mut Marks<'_>,
    out: &mut K,
    text: &mut Gathered,
    steps: &mut Steps<C>,
) -> Result<(), Failed>
    requires room { length (contents_of_view served.now).faces < room_of marks.old }
    requires empty { IsEmpty marks.old }
    ensures room { room_of marks.new ≡ room_of marks.old }
    ensures empty { IsEmpty marks.new }
    ensures writes { Writes result (out_at (K.held out.old) (K.faults out.old) text.old.items)
        (out_at (K.held out.new) (K.faults out.new) text.new.items)
        (answer (served_map served.now) (line.old.items ++ end.now)) }
    ensures forgotten { line.new.items ≡ [] }
    ensures least { OnOk result (steps.old + found_by_reads (served_map served.now) (line.old.items ++ end.now)
        ≤ steps.new) }
    ensures grows { steps.old ≤ steps.new }
    ensures paid { steps.new ≤ steps.old + words_to_answer (served_map served.now) (line.old.items ++ end.now) }
{
    go_on(line, end);
    let answered = answer_line(served, line.as_slice(), marks, out, text, steps);
    line.clear();
    answered
}

/// Answers the line whose front is kept, where it ends in the piece, and forgets the front. Gives the bytes behind it:
/// the whole piece where no front is kept, or the line doesn't end.
fn answer_front<'a, K: Sink, C: Ledger>(
    served: &Served<'_>,
    line: &mut Line,
    piece: &'a [u8],
    marks: &mut Marks<'_>,
    out: &mut K,
    text: &mut Gathered,
    steps: &mut Steps<C>,
) -> Result<&'a [u8], Failed>
    requires room { length (contents_of_view served.now).faces < room_of marks.old }
    requires empty { IsEmpty marks.old }
    ensures room { room_of marks.new ≡ room_of marks.old }
    ensures empty { IsEmpty marks.new }
    ensures writes { Writes result (out_at (K.held out.old) (K.faults out.old) text.old.items)
        (out_at (K.held out.new) (K.faults out.new) text.new.items)
        (flat_map (answer (served_map served.now)) (front_ended line.old.items piece.now)) }
    ensures lines { IfOk result (λ rest. ended_behind line.old.items piece.now
        ≡ front_ended line.old.items piece.now ++ ended_behind [] rest.now) }
    ensures open { IfOk result (λ rest. open_behind line.old.items piece.now
        ≡ line.new.items ++ open_behind [] rest.now) }
    ensures least { OnOk result (steps.old + over_lines (found_by_reads (served_map served.now))
        (front_ended line.old.items piece.now) ≤ steps.new) }
    ensures grows { steps.old ≤ steps.new }
    ensures paid { steps.new ≤ steps.old + over_lines (words_of_line (served_map served.now))
        (front_ended line.old.items piece.now) }
{
    if line.is_empty() {
        return Ok(piece);
    }
    let Some(end) = line_end(piece) else {
        return Ok(piece);
    };
    answer_ended(served, line, &piece[..end], marks, out, text, steps)?;
    Ok(&piece[end + 1..])
}

/// Answers lines that were read ahead, the next ones of these bytes. Gives the bytes behind them.
fn answer_ahead<'a, K: Sink, C: Ledger>(
    served: &Served<'_>,
    lines: &[LineAhead],
    script: &'a [u8],
    marks: &mut Marks<'_>,
    out: &mut K,
    text: &mut Gathered,
    steps: &mut Steps<C>,
) -> Result<&'a [u8], Failed>
    requires next { AreNext lines.now script.now }
    requires room { length (contents_of_view served.now).faces < room_of marks.old }
    requires empty { IsEmpty marks.old }
    ensures room { room_of marks.new ≡ room_of marks.old }
    ensures empty { IsEmpty marks.new }
    ensures writes { Writes result (out_at (K.held out.old) (K.faults out.old) text.old.items)
        (out_at (K.held out.new) (K.faults out.new) text.new.items)
        (flat_map (answer (served_map served.now)) (texts lines.now script.now)) }
    ensures rest { IfOk result (λ rest. rest.now ≡ behind lines.now script.now) }
    ensures least { OnOk result (steps.old + over_lines (found_by_reads (served_map served.now))
        (texts lines.now script.now) ≤ steps.new) }
    ensures grows { steps.old ≤ steps.new }
    ensures paid { steps.new ≤ steps.old + over_lines (words_to_answer (served_map served.now))
        (texts lines.now script.now) }
{
    let mut rest = script;
    for line in lines {
        answer_read(
            served,
            &rest[..line.end],
            &line.query,
            marks,
            out,
            text,
            steps,
        )?;
        rest = &rest[line.end + 1..];
    }
    Ok(rest)
}

/// Answers each line that ends in these bytes, some of them read ahead at a time, and those at once whose ids are past
/// the last. Gives the bytes behind the last line.
fn answer_lines<'a, K: Sink, C: Ledger>(
    file: &mut OpenFile<'_>,
    script: &'a [u8],
    marks: &mut Marks<'_>,
    out: &mut K,
    text: &mut Gathered,
    steps: &mut Steps<C>,
) -> Result<&'a [u8], Failed>
    requires room { length (contents_of_file file.old).faces < room_of marks.old }
    requires empty { IsEmpty marks.old }
    ensures room { room_of marks.new ≡ room_of marks.old }
    ensures empty { IsEmpty marks.new }
    ensures writes { Writes result (out_at (K.held out.old) (K.faults out.old) text.old.items)
        (out_at (K.held out.new) (K.faults out.new) text.new.items)
        (flat_map (answer (map_with (contents_of_file file.old))) (ended_behind [] script.now)) }
    ensures contents { contents_of_file file.new ≡ contents_of_file file.old }
    ensures open { IfOk result (λ rest. rest.now ≡ open_behind [] script.now) }
    ensures least { OnOk result (steps.old + over_lines (found_by_reads (map_with (contents_of_file file.old)))
        (ended_behind [] script.now) ≤ steps.new) }
    ensures grows { steps.old ≤ steps.new }
    ensures paid { steps.new ≤ steps.old + over_lines (words_of_line (map_with (contents_of_file file.old)))
        (ended_behind [] script.now) }
{
    let mut rest = script;
    loop {
        let Some(first) = first_line(rest) else {
            return Ok(rest);
        };
        if is_unknown(&Served::of(file), &first.query) {
            answer_unknown(&rest[..first.end], out, text)?;
            rest = &rest[first.end + 1..];
        } else {
            let first = LineAhead {
                end: first.end,
                query: first.query,
            };
            let lines = lines_from(first, rest);
            look_up(file, &lines, steps);
            let served = Served::of(file);
            rest = answer_ahead(&served, lines.as_slice(), rest, marks, out, text, steps)?;
        }
    }
}

/// Answers each line that ends in the piece, and writes the answers. The line that doesn't end stays open. The ids of
/// lines to come are looked up ahead.
pub(crate) fn answer_piece<K: Sink, C: Ledger>(
    file: &mut OpenFile<'_>,
    piece: &[u8],
    line: &mut Line,
    marks: &mut Marks<'_>,
    out: &mut K,
    text: &mut Gathered,
    steps: &mut Steps<C>,
) -> Result<(), Failed>
    requires room { length (contents_of_file file.old).faces < room_of marks.old }
    requires empty { IsEmpty marks.old }
    ensures room { room_of marks.new ≡ room_of marks.old }
    ensures empty { IsEmpty marks.new }
    ensures writes { Writes result (out_at (K.held out.old) (K.faults out.old) text.old.items)
        (out_at (K.held out.new) (K.faults out.new) text.new.items)
        (flat_map (answer (map_with (contents_of_file file.old))) (ended_behind line.old.items piece.now)) }
    ensures contents { contents_of_file file.new ≡ contents_of_file file.old }
    ensures written { OnOk result (text.new.items ≡ []) }
    ensures open { OnOk result (line.new.items ≡ cut (open_behind line.old.items piece.now)) }
    ensures least { OnOk result (steps.old + over_lines (found_by_reads (map_with (contents_of_file file.old)))
        (ended_behind line.old.items piece.now) ≤ steps.new) }
    ensures grows { steps.old ≤ steps.new }
    ensures paid { steps.new ≤ steps.old + over_lines (words_of_line (map_with (contents_of_file file.old)))
        (ended_behind line.old.items piece.now) }
{
    let served = Served::of(file);
    let rest = answer_front(&served, line, piece, marks, out, text, steps)?;
    let open = answer_lines(file, rest, marks, out, text, steps)?;
    go_on(line, open);
    put_out(out, text)
}
