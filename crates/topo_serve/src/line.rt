//! The line that is being read.

ghost use Rattle.std.specs.Prelude.{◌≡◌, ◌<◌, ◌++◌, length, slice_index, MatchOption};
ghost use Rattle.query_text.specs.Lines.{HasNoFeed};
ghost use Rattle.topo_serve.specs.Pieces.{cut};

use arrayvec::ArrayVec;
use memchr::memchr;

/// More bytes than a line may have, its carriage return among them: a line is long exactly where these of it are.
pub(crate) const KEPT: usize = 257;

/// The front of a line whose line feed didn't come yet.
pub(crate) type Line = ArrayVec<u8, KEPT>;

/// Puts bytes behind those of the line, as far as they are kept.
pub(crate) fn go_on(line: &mut Line, bytes: &[u8])
    ensures { line.new.items ≡ cut (line.old.items ++ bytes.now) }
{
    let count = line.remaining_capacity().min(bytes.len());
    line.try_extend_from_slice(&bytes[..count]).unwrap();
}

/// Where the first line feed of some bytes stands.
pub(crate) fn line_end(bytes: &[u8]) -> Option<usize>
    ensures { MatchOption result (HasNoFeed (length bytes.now) bytes.now)
        (λ end. (end < length bytes.now) × (slice_index bytes.now end ≡ 10) × HasNoFeed end bytes.now) }
{
    memchr(b'\n', bytes)
}
