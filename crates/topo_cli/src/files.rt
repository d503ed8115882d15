//! Whole files of a shelf, read and written.

ghost use Rattle.std.specs.Prelude.{◌≡◌, ◌≤◌, IfOk, length, OnErr, OnOk, IsErrOf};
ghost use Rattle.ports.specs.Outside.{IsNotHeld, OthersStay, Rose, WhereTold, Holds, HoldsFront};
ghost use Rattle.topo_cli.specs.Files.{IsLongFile, IsWhole};
ghost use Rattle.topo_cli.specs.Limits.{most_bytes};

use ports::{Failed, Shelf, ShelfFault};
use std::alloc::Global;

/// The most bytes of a table or a script.
pub const MOST_BYTES: usize = 1_073_741_824;

/// How many bytes a read asks for at most.
pub const PIECE: usize = 65_536;

#[derive(Clone, Copy, Debug, PartialEq, Eq)]
pub enum FileFault {
    Missing,
    Failed,
    TooLong,
    Memory,
}

/// All bytes of a file.
pub fn read_file<H: Shelf>(alloc: Global, shelf: &mut H, name: &str) -> Result<Vec<u8>, FileFault>
    ensures whole { IfOk result (λ bytes. IsWhole (H.files shelf.old) name.now bytes.items) }
    ensures short { IfOk result (λ bytes. length bytes.items ≤ most_bytes) }
    ensures missing { IsErrOf result FileFault.Missing → Rose (H.misses shelf.old) (H.misses shelf.new) }
    ensures not_held { IsErrOf result FileFault.Missing → IsNotHeld (H.files shelf.old) name.now }
    ensures failed { IsErrOf result FileFault.Failed → Rose (H.faults shelf.old) (H.faults shelf.new) }
    ensures long { IsErrOf result FileFault.TooLong → IsLongFile (H.files shelf.old) name.now }
    ensures kept { H.files shelf.new ≡ H.files shelf.old }
    ensures never_falls { H.faults shelf.old ≤ H.faults shelf.new }
    ensures misses_never_fall { H.misses shelf.old ≤ H.misses shelf.new }
    ensures no_write_fault { H.write_faults shelf.new ≡ H.write_faults shelf.old }
{
    let mut bytes = Vec::new(alloc);
    let mut buffer = [0u8; PIECE];
    while bytes.len() <= MOST_BYTES {
        let count = match shelf.read_at(name, bytes.len() as u64, &mut buffer) {
            Ok(count) => count,
            Err(ShelfFault::Missing) => return Err(FileFault::Missing),
            Err(ShelfFault::Failed) => return Err(FileFault::Failed),
        };
        if count == 0 {
            return Ok(bytes);
        }
        match bytes.extend_from_slice(&buffer[..count]) {
            Ok(()) => {}
            Err(_) => return Err(FileFault::Memory),
        }
    }
    Err(FileFault::TooLong)
}

/// Makes a file hold these bytes.
pub fn write_file<H: Shelf>(shelf: &mut H, name: &str, bytes: &[u8]) -> Result<(), Failed>
    ensures written { OnOk result (WhereTold (Holds name.now bytes.now) (H.files shelf.old) (H.files shelf.new)) }
    ensures part { OnErr result (WhereTold (HoldsFront name.now bytes.now) (H.files shelf.old) (H.files shelf.new)) }
    ensures rose { OnErr result (Rose (H.write_faults shelf.old) (H.write_faults shelf.new)) }
{
    shelf.start(name)?;
    shelf.append(name, bytes)
}
