//! The lines of what is refused.
//! This project's own.
ghost use Rattle.std.specs.Prelude.{◌≡◌, ◌≤◌, ◌++◌, codes, length, IfOk};
ghost use Rattle.std.specs.Fmt.{decimal};
ghost use Rattle.task_file.specs.PathText.{path_text};
ghost use Rattle.trace_text.specs.inner.Pieces.{room_of, text_of};
ghost use Rattle.trace_text.specs.Refusals as spec;

use super::Lines;
use crate::piece::Piece;
use fault_journal::JournalFault;
use rcp_base::Memory;
use task_file::{FileFault, Path};

impl Lines {
    /// All forms of words, built or not.
    #[tactic(auto, unfolding(crate::specs::Refusals::usage_line))]
    pub fn usage(&mut self) -> &[u8]
        ensures { result.now ≡ spec.usage_line }
    {
        self.line(&[
            Piece::Text(b"usage: ideal FILE JOURNAL | check FILE | thin FILE | "),
            Piece::Text(b"replay FILE JOURNAL [rs|ds|da] | events FILE JOURNAL first|last | "),
            Piece::Text(b"summary FILE JOURNAL | gen FILE NUMBER FRAMES\n"),
        ])
    }

    /// `task file refused: FAULT`. Out of memory is no fault of the file, and has no text.
    #[tactic(auto, unfolding(crate::specs::Refusals::task_refused_line))]
    pub fn task_refused(&mut self, fault: &FileFault) -> &[u8]
        ensures { result.now ≡ spec.task_refused_line fault.now }
    {
        match fault {
            FileFault::TooLong => self.task_file(&[Piece::Text(b"E01")]),
            FileFault::NotToml => self.task_file(&[Piece::Text(b"E02")]),
            FileFault::Shape { path } => self.task_file_at(b"E03 ", path),
            FileFault::BadName { path } => self.task_file_at(b"E04 ", path),
            FileFault::Syntax { path, byte } => self.task_file_byte(b"E05 ", path, *byte),
            FileFault::UnknownName { path, byte } => self.task_file_byte(b"E06 ", path, *byte),
            FileFault::BadTarget { path, byte } => self.task_file_byte(b"E07 ", path, *byte),
            FileFault::UnknownInSlot { path } => self.task_file_at(b"E08 ", path),
            FileFault::SlotClash { path } => self.task_file_at(b"E09 ", path),
            FileFault::Timing { rule } => self.task_file(&[
                Piece::Text(b"E10 rule "),
                Piece::Count(*rule as u64),
            ]),
            FileFault::Memory => self.task_file(&[]),
        }
    }

    /// `journal refused: FAULT`. Out of memory is no fault of the journal, and has no text.
    #[tactic(auto, unfolding(crate::specs::Refusals::journal_refused_line))]
    pub fn journal_refused(&mut self, fault: &JournalFault) -> &[u8]
        ensures { result.now ≡ spec.journal_refused_line fault.now }
    {
        match fault {
            JournalFault::TooLong => self.journal(&[Piece::Text(b"J01")]),
            JournalFault::Width { row } => self.journal_row(b"J02 row ", *row),
            JournalFault::Header => self.journal(&[Piece::Text(b"J03")]),
            JournalFault::Kind { row } => self.journal_row(b"J04 row ", *row),
            JournalFault::Column { row, column } => self.journal(&[
                Piece::Text(b"J05 row "),
                Piece::Count(*row as u64),
                Piece::Text(b" column "),
                Piece::Count(*column as u64),
            ]),
            JournalFault::Order { row } => self.journal_row(b"J06 row ", *row),
            JournalFault::Limit { row } => self.journal_row(b"J07 row ", *row),
            JournalFault::Repeated { row } => self.journal_row(b"J08 row ", *row),
            JournalFault::End { row } => self.journal_row(b"J09 row ", *row),
            JournalFault::Memory => self.journal(&[]),
        }
    }

    /// `unreadable: WORD`
    #[tactic(auto, unfolding(crate::specs::Refusals::unreadable_line))]
    pub fn unreadable(&mut self, word: &str) -> Result<&[u8], Memory>
        ensures { IfOk result (λ line. line.now ≡ spec.unreadable_line word.now) }
    {
        self.begin(&[Piece::Text(b"unreadable: ")]);
        self.add(word.as_bytes())?;
        self.end()
    }

    fn task_file(&mut self, why: &[Piece<'_>]) -> &[u8]
        requires { room_of why.now ≤ 200 }
        ensures { result.now ≡ codes "task file refused: " ++ text_of why.now ++ codes "\n" }
    {
        self.refusal(b"task file refused: ", why)
    }

    fn task_file_at(&mut self, code: &[u8], path: &Path) -> &[u8]
        requires { length code.now ≤ 4 }
        ensures { result.now
            ≡ codes "task file refused: " ++ (code.now ++ path_text path.now) ++ codes "\n" }
    {
        self.task_file(&[Piece::Text(code), Piece::Place(*path)])
    }

    fn task_file_byte(&mut self, code: &[u8], path: &Path, byte: u32) -> &[u8]
        requires { length code.now ≤ 4 }
        ensures { result.now ≡ codes "task file refused: "
            ++ (code.now ++ spec.byte_text path.now byte) ++ codes "\n" }
    {
        self.task_file(&[
            Piece::Text(code),
            Piece::Place(*path),
            Piece::Text(b" byte "),
            Piece::Count(byte as u64),
        ])
    }

    fn journal(&mut self, why: &[Piece<'_>]) -> &[u8]
        requires { room_of why.now ≤ 200 }
        ensures { result.now ≡ codes "journal refused: " ++ text_of why.now ++ codes "\n" }
    {
        self.refusal(b"journal refused: ", why)
    }

    fn journal_row(&mut self, code: &[u8], row: u32) -> &[u8]
        requires { length code.now ≤ 8 }
        ensures { result.now
            ≡ codes "journal refused: " ++ (code.now ++ decimal row) ++ codes "\n" }
    {
        self.journal(&[Piece::Text(code), Piece::Count(row as u64)])
    }

    // The line of what is refused, and why.
    fn refusal(&mut self, what: &[u8], why: &[Piece<'_>]) -> &[u8]
        requires what { length what.now ≤ 20 }
        requires why { room_of why.now ≤ 200 }
        ensures { result.now ≡ what.now ++ text_of why.now ++ codes "\n" }
    {
        self.begin(&[Piece::Text(what)]);
        self.put_all(why);
        self.put(b"\n");
        self.line.as_slice()
    }
}
