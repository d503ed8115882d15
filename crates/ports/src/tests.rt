//! The real thing, and what the objects in memory give.

use crate::{
    Failed, FileShelf, MemoryShelf, MemorySink, MemorySource, Shelf, ShelfFault, Sink, Source,
    StdSink, StdSource,
};
use std::fs;
use std::test::Fail;

const FOLDER: &str = "ports_test_folder";

const FILE: &str = "ports_test_folder/edge.csv";

const INNER_FOLDER: &str = "ports_test_folder/inner";

const WRITTEN_FOLDER: &str = "ports_test_written";

const WRITTEN: &str = "ports_test_written/map.pemb";

#[test]
fn file_shelf_reads_in_pieces_and_tells_missing_from_failed(rt: HostRuntime) -> Result<(), Fail> {
    let _ = fs::remove_dir_all(&rt, FOLDER);
    fs::create_dir(&rt, FOLDER)?;
    fs::create_dir(&rt, INNER_FOLDER)?;
    fs::write(&rt, FILE, b"edge_id\n1\n2\n".as_slice())?;

    let mut shelf = FileShelf::new(&rt);
    let mut buffer = [0u8; 8];
    assert_eq!(rt; shelf.read_at(FILE, 0, &mut buffer), Ok(8));
    assert_eq!(rt; buffer.as_slice(), b"edge_id\n".as_slice());
    assert_eq!(rt; shelf.read_at(FILE, 8, &mut buffer), Ok(4));
    assert_eq!(rt; buffer.as_slice(), b"1\n2\n_id\n".as_slice());
    assert_eq!(rt; shelf.read_at(FILE, 12, &mut buffer), Ok(0));

    let missing = "ports_test_folder/node.csv";
    assert_eq!(rt;
        shelf.read_at(missing, 0, &mut buffer),
        Err(ShelfFault::Missing)
    );
    let no_folder = "ports_test_folder/none/edge.csv";
    assert_eq!(rt;
        shelf.read_at(no_folder, 0, &mut buffer),
        Err(ShelfFault::Missing)
    );
    assert_eq!(rt;
        shelf.read_at(INNER_FOLDER, 0, &mut buffer),
        Err(ShelfFault::Failed)
    );
    fs::remove_dir_all(&rt, FOLDER)?;
    Ok(())
}

#[test]
fn file_shelf_writes_in_pieces_and_fails_where_no_file_can_be(rt: HostRuntime) -> Result<(), Fail> {
    let _ = fs::remove_dir_all(&rt, WRITTEN_FOLDER);
    fs::create_dir(&rt, WRITTEN_FOLDER)?;
    fs::write(&rt, WRITTEN, b"an older and longer text".as_slice())?;

    let mut shelf = FileShelf::new(&rt);
    assert_eq!(rt; shelf.start(WRITTEN), Ok(()));
    assert_eq!(rt; shelf.append(WRITTEN, b"PEMB"), Ok(()));
    assert_eq!(rt; shelf.append(WRITTEN, b""), Ok(()));
    assert_eq!(rt; shelf.append(WRITTEN, b"0001"), Ok(()));
    let mut buffer = [0u8; 5];
    assert_eq!(rt; shelf.read_at(WRITTEN, 0, &mut buffer), Ok(5));
    assert_eq!(rt; buffer.as_slice(), b"PEMB0".as_slice());
    assert_eq!(rt; shelf.append(WRITTEN, b"2"), Ok(()));
    assert_eq!(rt; shelf.read_at(WRITTEN, 5, &mut buffer), Ok(4));
    assert_eq!(rt; buffer.as_slice(), b"00120".as_slice());
    assert_eq!(rt; shelf.read_at(WRITTEN, 9, &mut buffer), Ok(0));

    let no_folder = "ports_test_written/none/map.pemb";
    assert_eq!(rt; shelf.start(no_folder), Err(Failed));
    assert_eq!(rt; shelf.append(no_folder, b"PEMB"), Err(Failed));
    assert_eq!(rt; shelf.start(WRITTEN_FOLDER), Err(Failed));
    assert_eq!(rt; shelf.append(WRITTEN_FOLDER, b"PEMB"), Err(Failed));
    fs::remove_dir_all(&rt, WRITTEN_FOLDER)?;
    Ok(())
}

#[test]
fn std_source_takes_from_a_reader(rt: HostRuntime) {
    let mut source = StdSource::new(b"ring 1\n".as_slice());
    let mut buffer = [0u8; 5];
    assert_eq!(rt; source.take(&mut buffer), Ok(5));
    assert_eq!(rt; buffer.as_slice(), b"ring ".as_slice());
    assert_eq!(rt; source.take(&mut buffer), Ok(2));
    assert_eq!(rt; buffer.as_slice(), b"1\nng ".as_slice());
    assert_eq!(rt; source.take(&mut buffer), Ok(0));
}

#[test]
fn std_sink_puts_into_a_writer_and_gives_it_back(rt: HostRuntime) {
    let mut sink = StdSink::new(Vec::new(rt.alloc()));
    assert_eq!(rt; sink.put(b"ring 1: "), Ok(()));
    assert_eq!(rt; sink.put(b"1 2 3\n"), Ok(()));
    assert_eq!(rt; sink.into_inner().as_slice(), b"ring 1: 1 2 3\n".as_slice());
}

#[test]
fn memory_source_fails_at_its_third_call_alone(rt: HostRuntime) {
    let mut source = MemorySource::new(b"0123456789abcdefghij", 7, &[3]);
    let mut buffer = [0u8; 16];
    assert_eq!(rt; source.take(&mut buffer), Ok(7));
    assert_eq!(rt; source.take(&mut buffer), Ok(7));
    assert_eq!(rt; source.take(&mut buffer), Err(Failed));
    assert_eq!(rt; source.take(&mut buffer), Ok(6));
    assert_eq!(rt; buffer.as_slice(), b"efghijd\0\0\0\0\0\0\0\0\0".as_slice());
    assert_eq!(rt; source.take(&mut buffer), Ok(0));
}

#[test]
fn memory_sink_keeps_half_of_a_failing_put(rt: HostRuntime) {
    let mut sink = MemorySink::new(rt.alloc(), &[2]);
    assert_eq!(rt; sink.put(b"abc"), Ok(()));
    assert_eq!(rt; sink.put(b"defgh"), Err(Failed));
    assert_eq!(rt; sink.put(b"ij"), Ok(()));
    assert_eq!(rt; sink.bytes(), b"abcdeij".as_slice());
}

#[test]
fn memory_shelf_replaces_one_name_and_keeps_the_other(rt: HostRuntime) -> Result<(), Fail> {
    let mut shelf = MemoryShelf::new(rt.alloc(), &[4]);
    shelf.add("edge.csv", b"edge_id\n1\n")?;
    shelf.add("node.csv", b"node_id\n")?;
    shelf.add("edge.csv", b"edge_id\n")?;
    let mut buffer = [0u8; 16];
    assert_eq!(rt; shelf.read_at("edge.csv", 5, &mut buffer), Ok(3));
    assert_eq!(rt; &buffer[..3], b"id\n".as_slice());
    assert_eq!(rt; shelf.read_at("node.csv", 0, &mut buffer), Ok(8));
    assert_eq!(rt;
        shelf.read_at("face.csv", 0, &mut buffer),
        Err(ShelfFault::Missing)
    );
    assert_eq!(rt;
        shelf.read_at("node.csv", 0, &mut buffer),
        Err(ShelfFault::Failed)
    );
    assert_eq!(rt; shelf.read_at("node.csv", 8, &mut buffer), Ok(0));
    Ok(())
}

#[test]
fn memory_shelf_gives_back_the_bytes_of_a_name(rt: HostRuntime) -> Result<(), Fail> {
    let mut shelf = MemoryShelf::new(rt.alloc(), &[]);
    shelf.add("map.pemb", b"PEMB")?;
    assert!(rt; matches!(shelf.file("map.pemb"), Some(b"PEMB")));
    assert!(rt; shelf.file("map").is_none());
    Ok(())
}

#[test]
fn memory_shelf_keeps_half_of_a_failing_append(rt: HostRuntime) {
    let mut shelf = MemoryShelf::new(rt.alloc(), &[1, 4]);
    assert_eq!(rt; shelf.start("map.pemb"), Err(Failed));
    assert!(rt; shelf.file("map.pemb").is_none());
    if shelf.start("map.pemb").is_ok() {
        let _ = shelf.append("map.pemb", b"abc");
        let _ = shelf.append("map.pemb", b"defgh");
        let _ = shelf.append("map.pemb", b"ij");
        assert!(rt; matches!(shelf.file("map.pemb"), Some(b"abcdeij")));
        assert_eq!(rt; shelf.start("map.pemb"), Ok(()));
        assert!(rt; matches!(shelf.file("map.pemb"), Some(b"")));
    }
}
