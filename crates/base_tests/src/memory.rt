//! Folders and sinks in memory, with what they hold and where they fail.
//! This project's own.
ghost use Rattle.std.specs.Prelude.{◌≡◌, IfOk};
ghost use Rattle.rcp_base.specs.MemFolder.{memory_folder_state};

use rcp_base::{
    Folder, MemFolder, MemSink, Memory, ReadError, Sink, SureFolder, SureSink, WriteError,
};
use std::alloc::Global;
use std::test::Fail;

#[test]
fn a_folder_in_memory_holds_files(rt: HostRuntime) -> Result<(), Fail> {
    let mut folder = SureFolder::new(rt.alloc());
    folder.put("a", b"old")?;
    folder.put("a", b"four")?;
    folder.put("b", b"")?;
    for (name, limit, expected, bytes) in [
        ("a", 4, Ok(()), "four"),
        ("b", 0, Ok(()), ""),
        ("a", 3, Err(ReadError::TooLong), "four"),
        ("c", 4, Err(ReadError::Failed), ""),
    ] {
        let mut into = Vec::new(rt.alloc());
        let result = folder.read(rt.alloc(), name, limit, &mut into);
        assert_eq!(rt; result, expected, "{name}");
        assert_eq!(rt; into.as_slice(), bytes.as_bytes(), "{name}");
    }
    Ok(())
}

#[test]
fn a_sink_in_memory_keeps_what_is_written(rt: HostRuntime) {
    let mut sink = SureSink::new(rt.alloc());
    assert!(rt; sink.write_all(b"one ").is_ok());
    assert!(rt; sink.write_all(b"two").is_ok());
    assert_eq!(rt; sink.bytes(), b"one two".as_slice());
}

#[test]
fn a_folder_fails_at_its_listed_calls(rt: HostRuntime) -> Result<(), Fail> {
    let mut folder = MemFolder::new(rt.alloc());
    folder.put("a", b"old")?;
    folder.put("a", b"four")?;
    folder.fail_at(0)?;
    folder.fail_at(5)?;
    folder.fail_at(2)?;
    for (name, limit, expected) in [
        ("a", 4, Ok(())),
        ("a", 4, Err(ReadError::Failed)),
        ("b", 4, Err(ReadError::Failed)),
        ("a", 3, Err(ReadError::TooLong)),
        ("b", 4, Err(ReadError::Failed)),
        ("a", 4, Ok(())),
    ] {
        let mut into = Vec::new(rt.alloc());
        let result = folder.read(rt.alloc(), name, limit, &mut into);
        assert_eq!(rt; result, expected, "{name}");
        if result.is_ok() {
            assert_eq!(rt; into.as_slice(), b"four".as_slice());
        }
    }
    Ok(())
}

/// Reads a missing name twice, the second time at a listed call, which alone is a fault.
fn folder_after_one_fault(alloc: Global) -> Result<MemFolder, Memory>
    ensures { IfOk result (λ folder. (memory_folder_state folder).faults ≡ 1) }
{
    let mut folder = MemFolder::new(alloc);
    folder.fail_at(2)?;
    let _ = folder.read(alloc, "a", 4, &mut Vec::new(alloc));
    let _ = folder.read(alloc, "a", 4, &mut Vec::new(alloc));
    Ok(folder)
}

#[test]
fn a_missing_name_is_no_fault(rt: HostRuntime) -> Result<(), Fail> {
    let mut folder = folder_after_one_fault(rt.alloc())?;
    folder.put("a", b"")?;
    let result = folder.read(rt.alloc(), "a", 0, &mut Vec::new(rt.alloc()));
    assert_eq!(rt; result, Ok(()));
    Ok(())
}

#[test]
fn a_sink_fails_at_its_listed_calls(rt: HostRuntime) -> Result<(), Fail> {
    let mut sink = MemSink::new(rt.alloc());
    for (call, after) in [(0, 1), (3, 5), (3, 1), (5, 9), (4, 0)] {
        sink.fail_at(call, after)?;
    }
    for (piece, expected, written) in [
        ("one ", Ok(()), "one "),
        ("two ", Ok(()), "one two "),
        ("three more", Err(WriteError::Failed), "one two three"),
        ("none", Err(WriteError::Failed), "one two three"),
        (" four", Err(WriteError::Failed), "one two three four"),
        (" five", Ok(()), "one two three four five"),
    ] {
        assert_eq!(rt; sink.write_all(piece.as_bytes()), expected, "{piece}");
        assert_eq!(rt; sink.bytes(), written.as_bytes(), "{piece}");
    }
    Ok(())
}
