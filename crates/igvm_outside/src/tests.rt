//! Each call once on its happy path, and the answers of the fakes when they are told to fail.
use super::*;
use std::alloc::Global;
use std::test::Fail;

const TEXT: &[u8] = b"0123456789";

fn shelf_of_one(alloc: Global) -> Result<MemShelf, Fail> {
    let mut shelf = MemShelf::new(alloc);
    shelf.put_file("a", TEXT)?;
    Ok(shelf)
}

#[test]
fn a_file_is_read_whole_in_any_pieces(rt: HostRuntime) -> Result<(), Fail> {
    for piece in [1, 3, 10, 11] {
        let mut shelf = shelf_of_one(rt.alloc())?;
        assert!(rt; piece >= 1);
        shelf.set_piece(piece);
        let bytes = read_all(rt.alloc(), &mut shelf, "a", 10)?;
        assert_eq!(rt; bytes.as_slice(), TEXT, "in pieces of {piece}");
    }
    Ok(())
}

// The name, the limit, the call that fails and the refusal.
#[test]
fn a_file_is_refused(rt: HostRuntime) -> Result<(), Fail> {
    for (name, limit, failing, want) in [
        ("a", 9, 0, ReadRefusal::TooLong),
        ("a", 0, 0, ReadRefusal::TooLong),
        ("b", 10, 0, ReadRefusal::Failed),
        ("", 10, 0, ReadRefusal::Failed),
        ("a", 10, 1, ReadRefusal::Failed),
        ("a", 10, 2, ReadRefusal::Failed),
        ("a", 10, 3, ReadRefusal::Failed),
    ] {
        let mut shelf = shelf_of_one(rt.alloc())?;
        shelf.fail_call(failing)?;
        assert!(rt; limit <= 536_870_912);
        let answer = read_all(rt.alloc(), &mut shelf, name, limit).err();
        assert_eq!(rt; answer, Some(want), "{name} {limit} {failing}");
    }
    Ok(())
}

#[test]
fn a_text_is_put_in_pieces_up_to_a_fault(rt: HostRuntime) -> Result<(), Fail> {
    for (failing, want) in [(0, TEXT), (1, b""), (3, b"012345"), (5, TEXT)] {
        let mut sink = MemSink::new(rt.alloc());
        sink.set_piece(3);
        sink.fail_call(failing)?;
        let is_whole = put_all(&mut sink, TEXT).is_ok();
        assert_eq!(rt; sink.bytes(), want, "at {failing}");
        assert_eq!(rt; is_whole, want.len() == TEXT.len(), "at {failing}");
    }
    Ok(())
}

#[test]
fn a_file_is_written(rt: HostRuntime) -> Result<(), Fail> {
    let mut shelf = shelf_of_one(rt.alloc())?;
    shelf.set_piece(4);
    write_file(&mut shelf, "b", b"new")?;
    write_file(&mut shelf, "a", b"")?;
    assert_eq!(rt;
        read_all(rt.alloc(), &mut shelf, "b", 9)?.as_slice(),
        b"new".as_slice()
    );
    assert_eq!(rt;
        read_all(rt.alloc(), &mut shelf, "a", 9)?.as_slice(),
        b"".as_slice()
    );
    Ok(())
}

// After a fault the file holds what was written before it. The calls are create, three writes and
// close.
#[test]
fn a_file_is_written_up_to_a_fault(rt: HostRuntime) -> Result<(), Fail> {
    for (failing, want) in [(1, TEXT), (2, b""), (4, b"newnewne"), (5, b"newnewnews")] {
        let mut shelf = shelf_of_one(rt.alloc())?;
        shelf.set_piece(4);
        shelf.fail_call(failing)?;
        assert!(rt; write_file(&mut shelf, "a", b"newnewnews").is_err());
        assert_eq!(rt;
            read_all(rt.alloc(), &mut shelf, "a", 10)?.as_slice(),
            want,
            "at {failing}"
        );
    }
    Ok(())
}

// The calls are create, a write of the front, two of the second piece, and close: a piece that is
// empty makes none.
#[test]
fn pieces_are_written_up_to_a_fault(rt: HostRuntime) -> Result<(), Fail> {
    for (failing, want) in [(0, b"newnewnews".as_slice()), (4, b"newnewn")] {
        let mut shelf = shelf_of_one(rt.alloc())?;
        shelf.set_piece(4);
        shelf.fail_call(failing)?;
        let is_whole = write_pieces(&mut shelf, "a", b"new", &[b"", b"newnews", b""]).is_ok();
        assert_eq!(rt;
            read_all(rt.alloc(), &mut shelf, "a", 10)?.as_slice(),
            want,
            "at {failing}"
        );
        assert_eq!(rt; is_whole, want.len() == 10, "at {failing}");
    }
    Ok(())
}

#[test]
fn a_file_is_streamed(rt: HostRuntime) -> Result<(), Fail> {
    let mut shelf = shelf_of_one(rt.alloc())?;
    shelf.set_piece(4);
    shelf.create("b")?;
    write_piece(&mut shelf, "b", b"newnews")?;
    write_piece(&mut shelf, "b", b"")?;
    write_piece(&mut shelf, "b", b"est")?;
    shelf.close("b")?;
    assert_eq!(rt;
        read_all(rt.alloc(), &mut shelf, "b", 10)?.as_slice(),
        b"newnewsest".as_slice()
    );
    // Laws: nothing runs.
    reads_compose::<MemShelf>();
    writes_compose::<MemShelf>();
    Ok(())
}

// The bytes are those of the numbers 0, 1 and 2.
#[test]
fn a_file_is_made(rt: HostRuntime) -> Result<(), Fail> {
    let mut shelf = MadeShelf::new(shelf_of_one(rt.alloc())?);
    let made = b"\0\0\0\0\0\0\0\0\x01\0\0\0\0\0\0\0\x02\0\0";
    assert_eq!(rt;
        read_all(rt.alloc(), &mut shelf, "made-19", 19)?.as_slice(),
        made.as_slice()
    );
    assert_eq!(rt;
        read_all(rt.alloc(), &mut shelf, "made-0", 19)?.as_slice(),
        b"".as_slice()
    );
    assert_eq!(rt;
        read_all(rt.alloc(), &mut shelf, "made-70000", 70_000)?.len(),
        70_000
    );
    assert_eq!(rt; read_all(rt.alloc(), &mut shelf, "a", 19)?.as_slice(), TEXT);
    assert_eq!(rt;
        read_all(rt.alloc(), &mut shelf, "made-4294967295", 19).err(),
        Some(ReadRefusal::TooLong)
    );
    for name in ["made-", "made-01", "made-+1", "made-4294967296", "Made-1"] {
        assert_eq!(rt;
            read_all(rt.alloc(), &mut shelf, name, 19).err(),
            Some(ReadRefusal::Failed),
            "{name}"
        );
    }
    write_file(&mut shelf, "b", b"new")?;
    assert_eq!(rt;
        read_all(rt.alloc(), &mut shelf, "b", 19)?.as_slice(),
        b"new".as_slice()
    );
    Ok(())
}

// A folder is no file: it can be neither read nor created.
#[test]
fn a_real_file_is_written_and_read(rt: HostRuntime) -> Result<(), Fail> {
    let name = "igvm_outside_test_file";
    let mut shelf = StdShelf::new(rt);
    write_file(&mut shelf, name, TEXT)?;
    let bytes = read_all(rt.alloc(), &mut shelf, name, 10)?;
    let refused = read_all(rt.alloc(), &mut shelf, name, 9).err();
    std::fs::remove_file(&rt, name)?;
    assert_eq!(rt; bytes.as_slice(), TEXT);
    assert_eq!(rt; refused, Some(ReadRefusal::TooLong));
    assert_eq!(rt;
        read_all(rt.alloc(), &mut shelf, name, 10).err(),
        Some(ReadRefusal::Failed)
    );
    assert_eq!(rt;
        read_all(rt.alloc(), &mut shelf, ".", 10).err(),
        Some(ReadRefusal::Failed)
    );
    assert!(rt; write_file(&mut shelf, ".", TEXT).is_err());
    put_all(&mut StdSink::output(rt), b"put\n")?;
    put_all(&mut StdSink::error(rt), b"put\n")?;
    Ok(())
}
