//! Cases as blocks of lines, by small functions, since each is proved alone.
//! This project's own.
use crate::call::{check_call, folder_of};
use crate::files::file_named;
use rcp_base::{MemFolder, MemSink};
use std::alloc::{AllocError, Global};
use std::process::Abort;
use std::test::Fail;

// A task file, the rows of a journal, the call that fails, and the text that is due.
#[derive(Drop)]
struct Case {
    file: String,
    rows: String,
    due: String,
    failing_read: u32,
    failing_write: u32,
    taken: u32,
}

fn number(text: &str) -> Result<u32, Fail> {
    Ok(text.parse().map_err(|_| "no number")?)
}

impl Case {
    fn new(alloc: Global, file: &str) -> Result<Case, AllocError> {
        let file = String::from_str(alloc, file)?;
        Ok(Case {
            file,
            rows: String::new(alloc),
            due: String::new(alloc),
            failing_read: 0,
            failing_write: 0,
            taken: 0,
        })
    }

    fn change(&mut self, alloc: Global, change: &str) -> Result<(), Fail> {
        self.file = changed(alloc, self.file.as_str(), change)?;
        Ok(())
    }

    fn fail_read(&mut self, read: &str) -> Result<(), Fail> {
        self.failing_read = number(read)?;
        Ok(())
    }

    fn fail_write(&mut self, write: &str) -> Result<(), Fail> {
        let (write, taken) = write.split_once(" after ").unwrap_or((write, ""));
        self.failing_write = number(write)?;
        self.taken = number(taken)?;
        Ok(())
    }

    // Takes one more line of the block.
    fn take(&mut self, alloc: Global, line: &str) -> Result<(), Fail> {
        if let Some(change) = line.strip_prefix("| ") {
            self.change(alloc, change)
        } else if let Some(row) = line.strip_prefix(": ") {
            Ok(put_line(&mut self.rows, row)?)
        } else if let Some(read) = line.strip_prefix("! read ") {
            self.fail_read(read)
        } else if let Some(write) = line.strip_prefix("! write ") {
            self.fail_write(write)
        } else if let Some(front) = line.strip_prefix("> ") {
            Ok(self.due.push_str(front)?)
        } else {
            Ok(put_line(&mut self.due, line)?)
        }
    }

    // The two files, with the call that fails.
    fn folder(&self, alloc: Global) -> Result<MemFolder, Fail> {
        let journal = journal_of(alloc, self.rows.as_str())?;
        let mut folder = folder_of(alloc, self.file.as_bytes(), journal.as_bytes())?;
        folder.fail_at(self.failing_read)?;
        Ok(folder)
    }

    fn sink(&self, alloc: Global) -> Result<MemSink, Fail> {
        let mut out = MemSink::new(alloc);
        out.fail_at(self.failing_write, self.taken)?;
        Ok(out)
    }

    // Makes the call with the words of this line; a replay once with the word of each layer.
    fn check(&self, rt: &impl Abort, alloc: Global, line: &str, status: &str) -> Result<(), Fail> {
        match line.strip_suffix(" rs") {
            Some(replay) => self.check_layers(rt, alloc, replay, status),
            None => self.check_line(rt, alloc, line, status),
        }
    }

    fn check_layers(
        &self,
        rt: &impl Abort,
        alloc: Global,
        replay: &str,
        status: &str,
    ) -> Result<(), Fail> {
        for layer in LAYERS {
            let line = format!(in alloc; "{replay} {layer}")?;
            self.check_line(rt, alloc, line.as_str(), status)?;
        }
        Ok(())
    }

    fn check_line(
        &self,
        rt: &impl Abort,
        alloc: Global,
        line: &str,
        status: &str,
    ) -> Result<(), Fail> {
        let mut folder = self.folder(alloc)?;
        let mut out = self.sink(alloc)?;
        let due = (status, self.due.as_str());
        check_call(rt, alloc, line, &mut folder, &mut out, due)
    }
}

/// The words of the layers that a replay may run over. It may also have none.
pub const LAYERS: [&str; 4] = ["", "rs", "ds", "da"];

/// Puts a line, with its line feed, after a text.
pub fn put_line(text: &mut String, line: &str) -> Result<(), AllocError> {
    text.push_str(line)?;
    text.push_str("\n")
}

/// A journal with these rows, each with its line feed, and without any one of two frames.
pub fn journal_of(alloc: Global, rows: &str) -> Result<String, AllocError> {
    let rows = if rows.is_empty() { "2,end,,,,\n" } else { rows };
    format!(in alloc; "frame,kind,a,b,c,d\n{rows}")
}

/// What stands before the last arrow of a line, and what is due.
pub fn parted(line: &str) -> (&str, &str) {
    line.rsplit_once(" => ").unwrap_or((line, ""))
}

fn halves(change: &str) -> (&str, &str) {
    change.split_once(" => ").unwrap_or((change, ""))
}

/// A file with a part in place of another.
pub fn replaced(alloc: Global, file: &str, old: &str, new: &str) -> Result<String, Fail> {
    let (before, after) = file.split_once(old).ok_or("no such part")?;
    Ok(format!(in alloc; "{before}{new}{after}")?)
}

/// A file with a part in place of another, by `OLD => NEW`. A tilde is a line feed.
pub fn changed(alloc: Global, file: &str, change: &str) -> Result<String, Fail> {
    let change = change.replace(alloc, "~", "\n")?;
    let (old, new) = halves(change.as_str());
    replaced(alloc, file, old, new)
}

/// The same with more than one change, which `&&` parts.
pub fn changed_often(alloc: Global, file: &str, changes: &str) -> Result<String, Fail> {
    let mut text = String::from_str(alloc, file)?;
    for change in changes.split(" && ") {
        text = changed(alloc, text.as_str(), change)?;
    }
    Ok(text)
}

fn first_word(text: &str) -> (&str, &str) {
    text.split_once(' ').unwrap_or((text, ""))
}

fn case_of(alloc: Global, name: &str, lines: &str) -> Result<Case, Fail> {
    let mut case = Case::new(alloc, file_named(name).ok_or("no such file")?)?;
    for line in lines.lines() {
        case.take(alloc, line)?;
    }
    Ok(case)
}

fn check_block(rt: &impl Abort, alloc: Global, block: &str) -> Result<(), Fail> {
    let (head, lines) = block.split_once('\n').unwrap_or((block, ""));
    let (status, words) = first_word(head);
    let (name, words) = first_word(words);
    let case = case_of(alloc, name, lines)?;
    case.check(rt, alloc, words, status)
}

/// Cases with an empty line between them. The first line of each is the status, a file's name and the words. Then a line
/// `| OLD => NEW` changes the file, `: ROW` is a row of the journal, `! read N` or `! write N after B` is the call that
/// fails, and all other lines are printed, one after `> ` without its line feed.
pub fn check_all(rt: &impl Abort, alloc: Global, cases: &str) -> Result<(), Fail> {
    for block in cases.split("\n\n") {
        check_block(rt, alloc, block)?;
    }
    Ok(())
}
