//! A file of the system that stays open between two pieces.

ghost use Rattle.std.specs.Prelude.{◌≤◌, length, IfOk};

use crate::std_sink::write_out;
use std::fs::{Files, OpenOptions};
use std::io::{ErrorKind, Read, Seek, SeekFrom};
use std::{fs, io};

/// The system opens no longer path.
const LONGEST_NAME: usize = 4096;

/// The name of an open file, without memory of its own.
#[derive(Drop)]
struct FileName {
    bytes: [u8; LONGEST_NAME],
    len: usize,
    ghost within: { len ≤ 4096 },
}

impl FileName {
    /// A name that is too long is refused, as the system does.
    fn new(name: &str) -> io::Result<FileName> {
        let len = name.len();
        if len > LONGEST_NAME {
            return Err(io::Error::from(ErrorKind::InvalidInput));
        }
        let mut bytes = [0; LONGEST_NAME];
        bytes[..len].copy_from_slice(name.as_bytes());
        Ok(FileName { bytes, len })
    }

    fn is(&self, name: &str) -> bool {
        &self.bytes[..self.len] == name.as_bytes()
    }
}

/// What an open file is open for.
#[derive(Clone, Copy, PartialEq, Eq)]
enum Purpose {
    /// The next read gives the bytes from this place on.
    ReadFrom(u64),
    /// The next write goes behind the last byte.
    Append,
}

/// A file that is open for the next piece.
#[derive(Drop)]
pub(crate) struct KeptFile<F: Drop> {
    file: F,
    name: FileName,
    purpose: Purpose,
}

impl<F: Drop> KeptFile<F> {
    fn is_for(&self, name: &str, purpose: Purpose) -> bool {
        self.purpose == purpose && self.name.is(name)
    }
}

/// One read of a file from a place on. A read that goes on where the last one
/// ended needs neither an opening nor a seek; one that gives nothing closes
/// the file.
pub(crate) fn read_file_at<R: Files>(
    rt: &R,
    open: &mut Option<KeptFile<R::File>>,
    name: &str,
    at: u64,
    into: &mut [u8],
) -> io::Result<usize>
    ensures { IfOk result (λ k. k ≤ length into.new) }
{
    let mut kept = match open.take() {
        Some(kept) if kept.is_for(name, Purpose::ReadFrom(at)) => kept,
        _ => open_at(rt, name, at)?,
    };
    let count = kept.file.read(into)?;
    if count > 0 {
        kept.purpose = Purpose::ReadFrom(at.saturating_add(count as u64));
        *open = Some(kept);
    }
    Ok(count)
}

/// Opens a file to read it from a place on.
fn open_at<R: Files>(rt: &R, name: &str, at: u64) -> io::Result<KeptFile<R::File>> {
    let mut file = fs::open(rt, name)?;
    file.seek(SeekFrom::Start(at))?;
    Ok(KeptFile {
        file,
        name: FileName::new(name)?,
        purpose: Purpose::ReadFrom(at),
    })
}

/// Makes a file, or empties the one that is there, and keeps it open.
pub(crate) fn start_file<R: Files>(
    rt: &R,
    open: &mut Option<KeptFile<R::File>>,
    name: &str,
) -> io::Result<()> {
    *open = None;
    let kept_name = FileName::new(name)?;
    *open = Some(KeptFile {
        file: fs::create(rt, name)?,
        name: kept_name,
        purpose: Purpose::Append,
    });
    Ok(())
}

/// Writes behind the last byte of a file that is there, until the bytes are
/// out, and closes it. A write behind `start_file` needs no opening.
pub(crate) fn append_to_file<R: Files>(
    rt: &R,
    open: &mut Option<KeptFile<R::File>>,
    name: &str,
    bytes: &[u8],
) -> io::Result<()> {
    let mut kept = match open.take() {
        Some(kept) if kept.is_for(name, Purpose::Append) => kept,
        _ => open_to_append(rt, name)?,
    };
    if write_out(&mut kept.file, bytes) {
        Ok(())
    } else {
        Err(io::Error::from(ErrorKind::WriteZero))
    }
}

fn open_to_append<R: Files>(rt: &R, name: &str) -> io::Result<KeptFile<R::File>> {
    Ok(KeptFile {
        file: OpenOptions::new().append(true).open(rt, name)?,
        name: FileName::new(name)?,
        purpose: Purpose::Append,
    })
}
