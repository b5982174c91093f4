//! The one place where tests call the program.
//! This project's own.
use rcp_base::{MemFolder, MemSink, Memory};
use rcp_top::{Layers, Status, rcp, rcp_over};
use std::alloc::Global;
use std::process::Abort;
use std::test::Fail;

// The number that the program ends with.
fn number(status: Status) -> &'static str {
    match status {
        Status::Done => "0",
        Status::Memory => "1",
        Status::Usage => "2",
        Status::TaskRefused => "3",
        Status::PatternRefused => "4",
        Status::JournalRefused => "5",
        Status::ReadFault => "6",
        Status::WriteFault => "7",
    }
}

fn words_of(alloc: Global, line: &str) -> Result<Vec<String>, Fail> {
    let mut list = Vec::new(alloc);
    for word in line.split_whitespace() {
        list.push(String::from_str(alloc, word)?)?;
    }
    Ok(list)
}

/// The number of the status for the words of this line.
pub fn call(
    alloc: Global,
    line: &str,
    folder: &mut MemFolder,
    out: &mut MemSink,
) -> Result<&'static str, Fail> {
    let words = words_of(alloc, line)?;
    Ok(number(rcp(alloc, words.as_slice(), folder, out)))
}

/// The words of each form that reads the task file T alone.
pub const FORMS_OF_FILE: &str = "check T
thin T
gen T 7 4";

/// The words of each form that reads the journal J too.
pub const FORMS_OF_JOURNAL: &str = "ideal T J
replay T J
replay T J rs
replay T J ds
replay T J da
events T J first
events T J last
summary T J";

/// Each of these forms answers so over these files.
pub fn check_forms(
    rt: &impl Abort,
    alloc: Global,
    forms: &str,
    files: (&[u8], &[u8]),
    due: (&str, &str),
) -> Result<(), Fail> {
    for line in forms.lines() {
        check(rt, alloc, line, files, due)?;
    }
    Ok(())
}

/// The same over layers that are handed in.
pub fn call_over<K: Layers>(
    alloc: Global,
    line: &str,
    folder: &mut MemFolder,
    out: &mut MemSink,
    layers: &mut K,
) -> Result<&'static str, Fail> {
    let words = words_of(alloc, line)?;
    Ok(number(rcp_over(alloc, words.as_slice(), folder, out, layers)))
}

fn put_files(folder: &mut MemFolder, file: &[u8], journal: &[u8]) -> Result<(), Memory> {
    folder.put("T", file)?;
    folder.put("J", journal)?;
    folder.put("B", b"no = toml = at all")
}

/// Two files, under T and J, and one under B that is no TOML.
pub fn folder_of(alloc: Global, file: &[u8], journal: &[u8]) -> Result<MemFolder, Memory> {
    let mut folder = MemFolder::new(alloc);
    put_files(&mut folder, file, journal)?;
    Ok(folder)
}

// The answer to this line is the one that is due.
fn check_status(rt: &impl Abort, line: &str, status: &str, due: &str) {
    assert_eq!(rt; status, due, "{line}");
}

fn check_text(rt: &impl Abort, line: &str, text: &[u8], due: &[u8]) {
    assert_eq!(rt; text, due, "{line}");
}

/// Over this folder and into this sink, the words of the line end with this status, and write this text.
pub fn check_call(
    rt: &impl Abort,
    alloc: Global,
    line: &str,
    folder: &mut MemFolder,
    out: &mut MemSink,
    due: (&str, &str),
) -> Result<(), Fail> {
    let status = call(alloc, line, folder, out)?;
    check_status(rt, line, status, due.0);
    check_text(rt, line, out.bytes(), due.1.as_bytes());
    Ok(())
}

/// Over these two files, the words of the line end with this status, and write this text.
pub fn check(
    rt: &impl Abort,
    alloc: Global,
    line: &str,
    files: (&[u8], &[u8]),
    due: (&str, &str),
) -> Result<(), Fail> {
    let mut folder = folder_of(alloc, files.0, files.1)?;
    let mut out = MemSink::new(alloc);
    check_call(rt, alloc, line, &mut folder, &mut out, due)
}

fn status_of_run(alloc: Global, folder: &mut MemFolder) -> Result<&'static str, Fail> {
    let mut out = MemSink::new(alloc);
    call(alloc, "ideal T J", folder, &mut out)
}

/// The plan of the file of this case runs over the journal.
pub fn check_runs(
    rt: &impl Abort,
    alloc: Global,
    case: &str,
    file: &str,
    journal: &str,
) -> Result<(), Fail> {
    let mut folder = folder_of(alloc, file.as_bytes(), journal.as_bytes())?;
    let status = status_of_run(alloc, &mut folder)?;
    check_status(rt, case, status, "0");
    Ok(())
}
