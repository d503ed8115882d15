//! Scripts in pieces, answered over files from outside.

ghost use Rattle.std.specs.Prelude.{◌≡◌, ◌<◌};

mod damaged_files;
mod hostile_scripts;

use crate::{ServeFault, serve};
use bit_words::Steps;
use image_words::{bytes_of, island, old_island, triangle};
use pemb_file::{Served, open};
use ports::{MemorySink, MemorySource};
use scratch_region::Region;
use std::alloc::Global;
use std::marker::Brand;
use std::sync::ledger::{Blank, Ledger};
use std::test::Fail;

/// Serves a script from the file of these bytes. None where it isn't opened.
fn served<C: Ledger>(
    alloc: Global,
    blank: Blank,
    bytes: &[u8],
    script: &mut MemorySource<'_>,
    out: &mut MemorySink<'_>,
) -> Option<Result<(), ServeFault>>
    requires name { blank.name ≡ C.name }
    requires parts { blank.parts ≡ C.parts }
    requires some { 0 < blank.parts }
{
    let mut steps = Steps::<C>::new(alloc, blank);
    let file = open(bytes, &mut steps).ok()?;
    let served = Served::of(&file);
    let mut words = [0; 1];
    let Ok((mut marks, _rest)) = Region::new(&mut words).carve(1) else {
        return None;
    };
    if served.faces().count() >= marks.room() {
        return None;
    }
    Some(serve(served, &mut marks, script, out, &mut steps))
}

/// Each form once, one of them twice, and lines that are none.
const FORMS: &[u8] =
    b"\n# x\r\nface 1\nadjacent 1\r\nadjacent 1\nislands 1\nislands 2\n   \ncontains 4\ncontains 5\nnode 5\n\
counts\r\nnode 99\nnode x\nnode 0\nregions 1\ncommon 1 2\nring 1\nends 1\nsides -4\nnext -99\r\n\
islands 99\n";

/// Lines of one byte each, by how many there are of it, and what stands behind them.
const LINES: [(usize, u8, &[u8]); 6] = [
    (255, b'a', b"\r\n"),
    (256, b'a', b"\n"),
    (256, b'a', b"\r\n"),
    (256, b' ', b"\n"),
    (255, b'#', b"\r\n"),
    (600, b'#', b"\n"),
];

const ANSWERS: &[u8] =
    b"face 1: 1 2 3 -4\nadjacent 1: 0 2\nadjacent 1: 0 2\nislands 1: -4\nislands 2: n5\ncontains 4: 1\n\
contains 5: 2\nnode 5:\ncounts: 5 4 2 2 2\nnode 99: unknown\nbad\nbad\nregions 1: 2 1\ncommon 1 2: 1\nring 1: 1 2 3\n\
ends 1: 1 2\nsides -4: 1 2\nnext -99: unknown\nislands 99: unknown\nbad\nlong\nlong\nlong\nlong\nnext 1: 2\n";

/// A script of all these lines. The last one has no line feed.
fn script(alloc: Global) -> Result<Vec<u8>, Fail> {
    let mut script = Vec::new(alloc);
    script.extend_from_slice(FORMS)?;
    for (count, byte, end) in LINES {
        for _ in 0..count {
            script.push(byte)?;
        }
        script.extend_from_slice(end)?;
    }
    script.extend_from_slice(b"next 1")?;
    Ok(script)
}

#[test]
fn pieces_of_each_size_give_the_same_answers(rt: HostRuntime) -> Result<(), Fail> {
    let alloc = rt.alloc();
    let file = bytes_of(alloc, &island())?;
    let text = script(alloc)?;
    for piece in [1, 2, 3, 4, 5, 6, 7, 8, 9, 255, 256, 257, 258] {
        let mut script = MemorySource::new(text.as_slice(), piece, &[]);
        let mut out = MemorySink::new(alloc, &[]);
        let result = served::<Brand>(alloc, Blank::new(1), file.as_slice(), &mut script, &mut out);
        assert_eq!(rt; result, Some(Ok(())));
        assert_eq!(rt; out.bytes(), ANSWERS);
    }
    Ok(())
}

#[test]
fn a_file_of_form_1_gives_the_same_answers(rt: HostRuntime) -> Result<(), Fail> {
    let alloc = rt.alloc();
    let file = bytes_of(alloc, &old_island())?;
    let text = script(alloc)?;
    let mut script = MemorySource::new(text.as_slice(), 4096, &[]);
    let mut out = MemorySink::new(alloc, &[]);
    let result = served::<Brand>(alloc, Blank::new(1), file.as_slice(), &mut script, &mut out);
    assert_eq!(rt; result, Some(Ok(())));
    assert_eq!(rt; out.bytes(), ANSWERS);
    Ok(())
}

#[test]
fn each_failing_write_leaves_a_front_of_the_answers(rt: HostRuntime) -> Result<(), Fail> {
    let alloc = rt.alloc();
    let file = bytes_of(alloc, &island())?;
    let text = script(alloc)?;
    let mut failed = 0;
    for call in 1..100 {
        let mut script = MemorySource::new(text.as_slice(), 30, &[]);
        let failing = [call];
        let mut out = MemorySink::new(alloc, &failing);
        let result = served::<Brand>(alloc, Blank::new(1), file.as_slice(), &mut script, &mut out);
        if result == Some(Err(ServeFault::WriteFault)) {
            failed = call;
        } else {
            assert_eq!(rt; result, Some(Ok(())));
            assert_eq!(rt; out.bytes(), ANSWERS);
        }
        assert!(rt; ANSWERS.starts_with(out.bytes()));
    }
    assert!(rt; failed > 10);
    Ok(())
}

#[test]
fn a_triangle_is_answered(rt: HostRuntime) -> Result<(), Fail> {
    let alloc = rt.alloc();
    let file = bytes_of(alloc, &triangle())?;
    let mut script = MemorySource::new(
        b"face 1\nface 0\nnode 1\nnode 2\nnext -1\nends -1\nsides 1\nadjacent 0\ncontains 1\nislands 0\ncounts\n",
        64,
        &[],
    );
    let mut out = MemorySink::new(alloc, &[]);
    let result = served::<Brand>(alloc, Blank::new(1), file.as_slice(), &mut script, &mut out);
    assert_eq!(rt; result, Some(Ok(())));
    assert_eq!(rt;
        out.bytes(),
        b"face 1: 1 2 3\nface 0: -1 -3 -2\nnode 1: 1 -3\nnode 2: -1 2\nnext -1: -3\nends -1: 2 1\n\
sides 1: 1 0\nadjacent 0: 1\ncontains 1: 0\nislands 0: -1\ncounts: 3 3 1 1 0\n"
            .as_slice()
    );
    Ok(())
}

#[test]
fn a_read_fault_leaves_the_answers_of_lines_that_ended(rt: HostRuntime) -> Result<(), Fail> {
    let alloc = rt.alloc();
    let file = bytes_of(alloc, &triangle())?;
    let mut script = MemorySource::new(b"node 1\nnode 2\nnode 3\n", 7, &[3]);
    let mut out = MemorySink::new(alloc, &[]);
    let result = served::<Brand>(alloc, Blank::new(1), file.as_slice(), &mut script, &mut out);
    assert_eq!(rt; result, Some(Err(ServeFault::ReadFault)));
    assert_eq!(rt; out.bytes(), b"node 1: 1 -3\nnode 2: -1 2\n".as_slice());
    Ok(())
}

#[test]
fn lines_after_bad_ones_are_answered(rt: HostRuntime) -> Result<(), Fail> {
    let alloc = rt.alloc();
    let file = bytes_of(alloc, &triangle())?;
    let mut text = Vec::new(alloc);
    text.extend_from_slice(b"\n# x\nnode 99\nnode x\nnode 0\n")?;
    text.extend_from_slice(&[b'a'; 256])?;
    text.extend_from_slice(b"\nnext 1")?;
    let mut script = MemorySource::new(text.as_slice(), 100, &[]);
    let mut out = MemorySink::new(alloc, &[]);
    let result = served::<Brand>(alloc, Blank::new(1), file.as_slice(), &mut script, &mut out);
    assert_eq!(rt; result, Some(Ok(())));
    assert_eq!(rt;
        out.bytes(),
        b"node 99: unknown\nbad\nbad\nlong\nnext 1: 2\n".as_slice()
    );
    Ok(())
}
