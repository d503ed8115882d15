//! Answers on their way out: gathered until a buffer is full.

ghost use Rattle.std.specs.Prelude.{◌≡◌, ◌≤◌, ◌+◌, ◌∷◌, ◌++◌, [], length, OnOk};
ghost use Rattle.topo_serve.specs.Gathering.{out_at, Writes};

use arrayvec::ArrayVec;
use ports::{Failed, Sink};

/// How many bytes of answers are gathered before they are written.
pub(crate) const GATHERED: usize = 65_536;

/// Bytes that are still to be written.
pub(crate) type Gathered = ArrayVec<u8, GATHERED>;

/// Writes what was gathered, and forgets it.
pub(crate) fn put_out<K: Sink>(out: &mut K, text: &mut Gathered) -> Result<(), Failed>
    ensures writes { Writes result (out_at (K.held out.old) (K.faults out.old) text.old.items)
        (out_at (K.held out.new) (K.faults out.new) text.new.items) [] }
    ensures empty { OnOk result (text.new.items ≡ []) }
{
    if !text.is_empty() {
        out.put(text.as_slice())?;
        text.clear();
    }
    Ok(())
}

/// Gathers some bytes, behind those that are still to be written.
#[inline(always)]
pub(crate) fn gather<K: Sink>(out: &mut K, text: &mut Gathered, bytes: &[u8]) -> Result<(), Failed>
    requires { length bytes.now ≤ 64 }
    ensures { Writes result (out_at (K.held out.old) (K.faults out.old) text.old.items)
        (out_at (K.held out.new) (K.faults out.new) text.new.items) bytes.now }
{
    if text.remaining_capacity() < bytes.len() {
        put_out(out, text)?;
    }
    text.try_extend_from_slice(bytes).unwrap();
    Ok(())
}

/// Gathers a space and the digits of a number.
#[inline(always)]
pub(crate) fn gather_spaced<K: Sink>(
    out: &mut K,
    text: &mut Gathered,
    digits: &[u8],
) -> Result<(), Failed>
    requires { length digits.now ≤ 64 }
    ensures { Writes result (out_at (K.held out.old) (K.faults out.old) text.old.items)
        (out_at (K.held out.new) (K.faults out.new) text.new.items) (32 ∷ digits.now) }
{
    if text.remaining_capacity() <= digits.len() {
        put_out(out, text)?;
    }
    text.try_push(b' ').unwrap();
    text.try_extend_from_slice(digits).unwrap();
    Ok(())
}

/// Gathers some bytes and others behind them.
#[inline(always)]
pub(crate) fn gather_both<K: Sink>(
    out: &mut K,
    text: &mut Gathered,
    front: &[u8],
    back: &[u8],
) -> Result<(), Failed>
    requires { length front.now + length back.now ≤ 512 }
    ensures { Writes result (out_at (K.held out.old) (K.faults out.old) text.old.items)
        (out_at (K.held out.new) (K.faults out.new) text.new.items) (front.now ++ back.now) }
{
    if text.remaining_capacity() < front.len() + back.len() {
        put_out(out, text)?;
    }
    text.try_extend_from_slice(front).unwrap();
    text.try_extend_from_slice(back).unwrap();
    Ok(())
}
