//! A table on its way out: gathered until a buffer is full, and then put behind what its name holds.

ghost use Rattle.std.specs.Prelude.{◌≡◌, ◌≤◌, ◌+◌, [], length, OnOk};
ghost use Rattle.ports.specs.Outside.{IsHeld};
ghost use Rattle.table_dump.specs.Gathering.{out_at, Writes};

use arrayvec::ArrayVec;
use ports::{Failed, Shelf};

/// How many bytes of a table are gathered before they are written.
const GATHERED: usize = 65_536;

/// Bytes that are still to be written.
pub(crate) type Gathered = ArrayVec<u8, GATHERED>;

/// Writes what was gathered, and forgets it.
pub(crate) fn put_out<H: Shelf>(
    shelf: &mut H,
    name: &str,
    text: &mut Gathered,
) -> Result<(), Failed>
    requires { IsHeld (H.files shelf.old) name.now }
    ensures writes { Writes result name.now (out_at (H.files shelf.old) (H.write_faults shelf.old) text.old.items)
        (out_at (H.files shelf.new) (H.write_faults shelf.new) text.new.items) [] }
    ensures empty { OnOk result (text.new.items ≡ []) }
    ensures no_fault { H.faults shelf.new ≡ H.faults shelf.old }
    ensures no_miss { H.misses shelf.new ≡ H.misses shelf.old }
{
    if text.is_empty() {
        return Ok(());
    }
    shelf.append(name, text.as_slice())?;
    text.clear();
    Ok(())
}

/// Writes what was gathered where there is no room for so many bytes more.
pub(crate) fn make_room<H: Shelf>(
    shelf: &mut H,
    name: &str,
    text: &mut Gathered,
    room: usize,
) -> Result<(), Failed>
    requires held { IsHeld (H.files shelf.old) name.now }
    requires some { room ≤ 65536 }
    ensures writes { Writes result name.now (out_at (H.files shelf.old) (H.write_faults shelf.old) text.old.items)
        (out_at (H.files shelf.new) (H.write_faults shelf.new) text.new.items) [] }
    ensures room { OnOk result (length text.new.items + room ≤ 65536) }
    ensures no_fault { H.faults shelf.new ≡ H.faults shelf.old }
    ensures no_miss { H.misses shelf.new ≡ H.misses shelf.old }
{
    if text.remaining_capacity() < room {
        put_out(shelf, name, text)
    } else {
        Ok(())
    }
}

/// Gathers some bytes, behind those that are still to be written.
pub(crate) fn gather<H: Shelf>(
    shelf: &mut H,
    name: &str,
    text: &mut Gathered,
    bytes: &[u8],
) -> Result<(), Failed>
    requires short { length bytes.now ≤ 256 }
    requires held { IsHeld (H.files shelf.old) name.now }
    ensures writes { Writes result name.now (out_at (H.files shelf.old) (H.write_faults shelf.old) text.old.items)
        (out_at (H.files shelf.new) (H.write_faults shelf.new) text.new.items) bytes.now }
    ensures no_fault { H.faults shelf.new ≡ H.faults shelf.old }
    ensures no_miss { H.misses shelf.new ≡ H.misses shelf.old }
{
    make_room(shelf, name, text, bytes.len())?;
    text.try_extend_from_slice(bytes).unwrap();
    Ok(())
}
