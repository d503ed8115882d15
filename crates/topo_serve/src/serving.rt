//! The loop over the pieces of a script.

ghost use Rattle.std.specs.Prelude.{◌≡◌, ◌<◌, ◌≤◌, ◌+◌, ◌↔◌, [], flat_map, length, take, IfOk, OnOk, OnErr};
ghost use Rattle.std.specs.Io.KnownBytes.{Consumes};
ghost use Rattle.ports.specs.Outside.{Rose, IsEndAt};
ghost use Rattle.scratch_region.specs.Marks.{room_of, IsEmpty};
ghost use Rattle.pemb_file.specs.Served.{contents_of_view};
ghost use Rattle.navigate.specs.Bound.{served_map};
ghost use Rattle.topo_serve.specs.Serving.{Serves, most_bytes, over_lines, words_of_line, found_by_reads};
ghost use Rattle.topo_serve.specs.Gathering.{out_at, Writes};
ghost use Rattle.topo_serve.specs.Pieces.{last_line};
ghost use Rattle.plane_model.specs.Answers.{answer};

use crate::answer::answer_line;
use crate::fault::ServeFault;
use crate::gathered::{Gathered, put_out};
use crate::line::Line;
use crate::piece::answer_piece;
use bit_words::Steps;
use pemb_file::Served;
use ports::{Failed, Sink, Source};
use scratch_region::Marks;
use std::sync::ledger::Ledger;

/// The most bytes of a script.
const MOST_BYTES: usize = 1_073_741_824;

/// How many bytes of the script are asked for at once.
const PIECE: usize = 65_536;

/// Takes the next piece: never a byte past the limit together with others, so that what was taken is answered before.
fn next_piece<S: Source>(script: &mut S, buffer: &mut [u8], taken: usize) -> Result<usize, Failed>
    requires room { length buffer.old ≡ PIECE }
    requires taken { taken ≤ most_bytes }
    ensures within { IfOk result (λ k. k ≤ length buffer.new) }
    ensures limit { IfOk result (λ k. taken < most_bytes → taken + k ≤ most_bytes) }
    ensures single { IfOk result (λ k. taken ≡ most_bytes → k ≤ 1) }
    ensures moved { IfOk result (λ k. Consumes (S.left script.old) (S.left script.new) (take k buffer.new)) }
    ensures end { IfOk result (λ k. IsEndAt (S.left script.old) 1 k) }
    ensures no_fault { OnOk result (S.faults script.new ≡ S.faults script.old) }
    ensures kept { OnErr result (S.left script.new ≡ S.left script.old) }
    ensures failed { OnErr result (Rose (S.faults script.old) (S.faults script.new)) }
    ensures never_falls { S.faults script.old ≤ S.faults script.new }
{
    let room = (MOST_BYTES - taken).min(buffer.len()).max(1);
    script.take(&mut buffer[..room])
}

/// Answers the last line, which lacks a line feed, unless it is empty.
fn answer_rest<K: Sink, C: Ledger>(
    served: &Served<'_>,
    line: &[u8],
    marks: &mut Marks<'_>,
    out: &mut K,
    text: &mut Gathered,
    steps: &mut Steps<C>,
) -> Result<(), Failed>
    requires room { length (contents_of_view served.now).faces < room_of marks.old }
    requires empty { IsEmpty marks.old }
    ensures room { room_of marks.new ≡ room_of marks.old }
    ensures empty { IsEmpty marks.new }
    ensures writes { Writes result (out_at (K.held out.old) (K.faults out.old) text.old.items)
        (out_at (K.held out.new) (K.faults out.new) text.new.items)
        (flat_map (answer (served_map served.now)) (last_line line.now)) }
    ensures written { OnOk result (text.old.items ≡ [] → text.new.items ≡ []) }
    ensures least { OnOk result (steps.old + over_lines (found_by_reads (served_map served.now)) (last_line line.now)
        ≤ steps.new) }
    ensures grows { steps.old ≤ steps.new }
    ensures paid { steps.new ≤ steps.old + over_lines (words_of_line (served_map served.now)) (last_line line.now) }
{
    if line.is_empty() {
        return Ok(());
    }
    answer_line(served, line, marks, out, text, steps)?;
    put_out(out, text)
}

/// Answers a script, as it arrives: what is answered is written before more is taken, and a byte past the limit is
/// asked for by itself. The marks need room for each face, 0 among them, and are empty again on every answer.
pub fn serve<S: Source, K: Sink, C: Ledger>(
    served: Served<'_>,
    marks: &mut Marks<'_>,
    script: &mut S,
    out: &mut K,
    steps: &mut Steps<C>,
) -> Result<(), ServeFault>
    requires room { length (contents_of_view served).faces < room_of marks.old }
    requires empty { IsEmpty marks.old }
    ensures room { room_of marks.new ≡ room_of marks.old }
    ensures empty { IsEmpty marks.new }
    ensures serves { Serves (served_map served.entry) (record {
      script_before = S.left script.old;
      script_after = S.left script.new;
      script_faults_before = S.faults script.old;
      script_faults_after = S.faults script.new;
      out_before = K.held out.old;
      out_after = K.held out.new;
      out_faults_before = K.faults out.old;
      out_faults_after = K.faults out.new;
      steps_before = steps.old;
      steps_after = steps.new;
    }) result }
{
    let mut file = *served.file();
    let mut buffer = [0u8; PIECE];
    let mut text = Gathered::new();
    let mut line = Line::new();
    let mut taken = 0;
    loop {
        let count = match next_piece(script, &mut buffer, taken) {
            Ok(count) => count,
            Err(Failed) => return Err(ServeFault::ReadFault),
        };
        if count == 0 {
            return match answer_rest(&served, line.as_slice(), marks, out, &mut text, steps) {
                Ok(()) => Ok(()),
                Err(Failed) => Err(ServeFault::WriteFault),
            };
        }
        if taken == MOST_BYTES {
            return Err(ServeFault::ScriptTooLong);
        }
        match answer_piece(
            &mut file,
            &buffer[..count],
            &mut line,
            marks,
            out,
            &mut text,
            steps,
        ) {
            Ok(()) => taken += count,
            Err(Failed) => return Err(ServeFault::WriteFault),
        }
    }
}
