//! The lines of a run, and how a line is put together.
//! This project's own.
ghost use Rattle.std.specs.Prelude.{◌≡◌, ◌+◌, ◌*◌, ◌<◌, ◌≤◌, [], ◌∷◌, ◌++◌, codes, length, if◌then◌else◌, IfOk, OnOk};
ghost use Rattle.std.specs.Fmt.{decimal};
ghost use Rattle.std.specs.Vec.{vec_capacity};
ghost use Rattle.rcp_base.specs.declared.TheConstants.{MAX_CELLS};
ghost use Rattle.task_file.specs.PathText.{bracketed, dotted, path_text};
ghost use Rattle.trace_text.specs.declared.lines.TheConstants.{ROOM};
ghost use Rattle.trace_text.specs.inner.Pieces.{piece_room, piece_text, room_of, text_of};
ghost use Rattle.trace_text.specs.Lines as spec;

mod numbers;
mod plan;
mod refusals;

use crate::label::{Label, label_word};
use crate::piece::Piece;
use crate::words::{key_word, section_word};
use event_queue::{Event, EventKind};
use rcp_base::{Memory, Name};
use std::alloc::Global;
use task_file::{Key, Path};

// The bytes that are reserved: room for each line that takes no memory.
const ROOM: usize = 2_048;

/// One buffer, in which each line is made. An error leaves it ready for the next line.
#[derive(Drop)]
pub struct Lines {
    alloc: Global,
    line: Vec<u8>,
    ghost room: { ROOM ≤ vec_capacity line },
}

impl Lines {
    /// Reserves the buffer.
    pub fn new(alloc: Global) -> Result<Lines, Memory> {
        let line = Vec::with_capacity(alloc, ROOM)?;
        Ok(Lines { alloc, line })
    }

    /// `frame T`
    #[tactic(auto, unfolding(crate::specs::Lines::frame_line))]
    pub fn frame(&mut self, t: u32) -> &[u8]
        ensures { result.now ≡ spec.frame_line t }
    {
        self.start(b"frame ");
        self.put_count(t as u64);
        self.finish()
    }

    /// `frame T guard G`
    #[tactic(auto, unfolding(crate::specs::Lines::frame_guard_line))]
    pub fn frame_guard(&mut self, t: u32, guard: bool) -> &[u8]
        ensures { result.now ≡ spec.frame_guard_line t guard }
    {
        self.start(b"frame ");
        self.put_count(t as u64);
        self.put_either(guard, b" guard yes\n", b" guard no\n");
        self.line.as_slice()
    }

    /// `vote NAME VALUE`, or `vote NAME none`
    #[tactic(auto, unfolding(crate::specs::Lines::vote_line))]
    pub fn vote(&mut self, name: &Name, value: Option<i64>) -> &[u8]
        ensures { result.now ≡ spec.vote_line name.now value }
    {
        self.start(b"vote ");
        self.put(name.bytes());
        self.put_byte(b' ');
        self.put_value_or_none(value);
        self.finish()
    }

    /// `ideal slot S cells V V ..`
    #[tactic(auto, unfolding(crate::specs::Lines::ideal_line))]
    pub fn ideal(&mut self, slot: u32, cells: &[i64]) -> &[u8]
        requires { length cells.now ≤ MAX_CELLS }
        ensures { result.now ≡ spec.ideal_line slot cells.now }
    {
        self.start(b"ideal slot ");
        self.put_state(slot, cells);
        self.finish()
    }

    /// `replica P up slot S cells V V .. working G`
    #[tactic(auto, unfolding(crate::specs::Lines::replica_line))]
    pub fn replica(
        &mut self,
        replica: u32,
        down: bool,
        slot: u32,
        cells: &[i64],
        working: bool,
    ) -> &[u8]
        requires { length cells.now ≤ MAX_CELLS }
        ensures { result.now ≡ spec.replica_line replica down slot cells.now working }
    {
        self.start(b"replica ");
        self.put_count(replica as u64);
        self.put_either(down, b" down slot ", b" up slot ");
        self.put_state(slot, cells);
        self.put_either(working, b" working yes\n", b" working no\n");
        self.line.as_slice()
    }

    /// `TICK begin P` and its like, or `TICK deliver FROM to TO of FRAME`
    #[tactic(auto, unfolding(crate::specs::Lines::event_line))]
    pub fn event(&mut self, event: &Event) -> &[u8]
        ensures { result.now ≡ spec.event_line event.now }
    {
        self.line.clear();
        self.put_value(&event.tick);
        match event.kind {
            EventKind::Begin => self.own_event(b" begin ", event.replica),
            EventKind::Send => self.own_event(b" send ", event.replica),
            EventKind::Deliver => self.delivery(event),
            EventKind::Vote => self.own_event(b" vote ", event.replica),
            EventKind::Sync => self.own_event(b" sync ", event.replica),
        }
    }

    // The line so far, and what follows the tick of an event of a replica's own.
    #[inline(always)]
    fn own_event(&mut self, word: &[u8], replica: u32) -> &[u8]
        requires { length self.old.line.items + length word.now ≤ 30 }
        ensures { result.now ≡ self.old.line.items ++ word.now ++ decimal replica ++ codes "\n" }
    {
        self.put(word);
        self.put_count(replica as u64);
        self.finish()
    }

    // The line so far, and what follows the tick of a delivery.
    fn delivery(&mut self, event: &Event) -> &[u8]
        requires { length self.old.line.items ≤ 20 }
        ensures { result.now ≡ self.old.line.items ++ codes " deliver " ++ decimal event.now.other
            ++ codes " to " ++ decimal event.now.replica
            ++ codes " of " ++ decimal event.now.frame ++ codes "\n" }
    {
        self.put(b" deliver ");
        self.put_count(event.other as u64);
        self.put(b" to ");
        self.put_count(event.replica as u64);
        self.put(b" of ");
        self.put_count(event.frame as u64);
        self.finish()
    }

    /// `recovery L`, `votes COUNT`, `end FRAMES` and their like
    #[tactic(auto, unfolding(crate::specs::Lines::count_line))]
    pub fn count(&mut self, label: Label, value: u64) -> &[u8]
        ensures { result.now ≡ spec.count_line label value }
    {
        self.start(label_word(label));
        self.put_byte(b' ');
        self.put_count(value);
        self.finish()
    }

    // Starts a line with this word.
    #[inline(always)]
    fn start(&mut self, word: &[u8])
        requires { length word.now ≤ ROOM }
        ensures { self.new.line.items ≡ word.now }
    {
        self.line.clear();
        self.put(word);
    }

    // Ends a line that has room for it.
    #[inline(always)]
    fn finish(&mut self) -> &[u8]
        requires { length self.old.line.items < ROOM }
        ensures { result.now ≡ self.old.line.items ++ codes "\n" }
    {
        self.put_byte(b'\n');
        self.line.as_slice()
    }

    // The line of these pieces.
    fn line(&mut self, pieces: &[Piece<'_>]) -> &[u8]
        requires { room_of pieces.now ≤ ROOM }
        ensures { result.now ≡ text_of pieces.now }
    {
        self.begin(pieces);
        self.line.as_slice()
    }

    // Begins a line with these pieces.
    fn begin(&mut self, pieces: &[Piece<'_>])
        requires { room_of pieces.now ≤ ROOM }
        ensures begun { self.new.line.items ≡ text_of pieces.now }
        ensures room { length self.new.line.items ≤ room_of pieces.now }
    {
        self.line.clear();
        self.put_all(pieces);
    }

    // Puts these pieces after the line so far.
    fn put_all(&mut self, pieces: &[Piece<'_>])
        requires { length self.old.line.items + room_of pieces.now ≤ ROOM }
        ensures put { self.new.line.items ≡ self.old.line.items ++ text_of pieces.now }
        ensures room { length self.new.line.items
            ≤ length self.old.line.items + room_of pieces.now }
    {
        for piece in pieces {
            self.put_piece(piece);
        }
    }

    fn put_piece(&mut self, piece: &Piece<'_>)
        requires { length self.old.line.items + piece_room piece.now ≤ ROOM }
        ensures put { self.new.line.items ≡ self.old.line.items ++ piece_text piece.now }
        ensures room { length self.new.line.items
            ≤ length self.old.line.items + piece_room piece.now }
    {
        match piece {
            Piece::Text(bytes) => self.put(bytes),
            Piece::Count(n) => self.put_count(*n),
            Piece::Place(path) => self.put_path(path),
        }
    }

    // Puts these bytes after the line so far. Where they are constant, the copy is a store or two.
    #[inline(always)]
    fn put(&mut self, bytes: &[u8])
        requires { length self.old.line.items + length bytes.now ≤ ROOM }
        ensures put { self.new.line.items ≡ self.old.line.items ++ bytes.now }
        ensures length { length self.new.line.items
            ≡ length self.old.line.items + length bytes.now }
    {
        let _put = self.line.extend_from_slice(bytes);
    }

    // Puts this byte after the line so far.
    #[inline(always)]
    fn put_byte(&mut self, byte: u8)
        requires { length self.old.line.items < ROOM }
        ensures put { self.new.line.items ≡ self.old.line.items ++ byte ∷ [] }
        ensures length { length self.new.line.items ≡ length self.old.line.items + 1 }
    {
        self.line.push_reserved(byte);
    }

    // Puts the first of two texts, or the second.
    #[inline(always)]
    fn put_either(&mut self, test: bool, first: &[u8], second: &[u8])
        requires { (length self.old.line.items + length first.now ≤ ROOM)
            × (length self.old.line.items + length second.now ≤ ROOM) }
        ensures { self.new.line.items
            ≡ self.old.line.items ++ (if test then first.now else second.now) }
    {
        if test {
            self.put(first);
        } else {
            self.put(second);
        }
    }

    // A value, or `none`
    fn put_value_or_none(&mut self, value: Option<i64>)
        requires { length self.old.line.items + 20 ≤ ROOM }
        ensures put { self.new.line.items ≡ self.old.line.items ++ spec.value_or_none value }
        ensures room { length self.new.line.items ≤ length self.old.line.items + 20 }
    {
        match value {
            Some(value) => self.put_value(&value),
            None => self.put(b"none"),
        }
    }

    // `S cells V V ..`, after `slot `
    #[inline(always)]
    fn put_state(&mut self, slot: u32, cells: &[i64])
        requires { length self.old.line.items + 26 + 21 * length cells.now ≤ ROOM }
        ensures put { self.new.line.items ≡ self.old.line.items
            ++ decimal slot ++ codes " cells" ++ spec.numbers_text cells.now }
        ensures room { length self.new.line.items
            ≤ length self.old.line.items + 26 + 21 * length cells.now }
    {
        self.put_count(slot as u64);
        self.put(b" cells");
        self.put_values(cells);
    }

    // A place in a task file.
    fn put_path(&mut self, path: &Path)
        requires { length self.old.line.items + 80 ≤ ROOM }
        ensures put { self.new.line.items ≡ self.old.line.items ++ path_text path.now }
        ensures room { length self.new.line.items ≤ length self.old.line.items + 80 }
    {
        self.put(section_word(path.section));
        self.put_bracketed(path.index);
        self.put_dotted(path.key);
        self.put_bracketed(path.item);
    }

    // A number in brackets, where there is one.
    fn put_bracketed(&mut self, number: Option<u32>)
        requires { length self.old.line.items + 22 ≤ ROOM }
        ensures put { self.new.line.items ≡ self.old.line.items ++ bracketed number }
        ensures room { length self.new.line.items ≤ length self.old.line.items + 22 }
    {
        if let Some(number) = number {
            self.put(b"[");
            self.put_count(number as u64);
            self.put(b"]");
        }
    }

    // A key after a dot, where there is one.
    fn put_dotted(&mut self, key: Option<Key>)
        requires { length self.old.line.items + 16 ≤ ROOM }
        ensures put { self.new.line.items ≡ self.old.line.items ++ dotted key }
        ensures room { length self.new.line.items ≤ length self.old.line.items + 16 }
    {
        if let Some(key) = key {
            self.put(b".");
            self.put(key_word(key));
        }
    }

    // Adds these bytes to a line of any length.
    fn add(&mut self, bytes: &[u8]) -> Result<(), Memory>
        ensures { OnOk result (self.new.line.items ≡ self.old.line.items ++ bytes.now) }
    {
        Ok(self.line.extend_from_slice(bytes)?)
    }

    // Ends a line of any length.
    fn end(&mut self) -> Result<&[u8], Memory>
        ensures { IfOk result (λ line. line.now ≡ self.old.line.items ++ codes "\n") }
    {
        self.add(b"\n")?;
        Ok(self.line.as_slice())
    }
}
