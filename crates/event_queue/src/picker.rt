//! Pickers: who chooses among events that are due at once.
//! This project's own.
ghost use Rattle.std.specs.Prelude.{◌≡◌, ℕ, Option, Some, IfSome};
ghost use Rattle.event_queue.specs.Picker.{later_answers, script_answers};

use rcp_base::List;
use std::marker::Model;

/// Chooses among events that are due at once. It may tell what it will answer.
pub trait Picker {
    /// Its answers to the calls to come, if it tells them.
    ghost answers: { Self → Option (ℕ → ℕ) };

    /// The place of one of `n` events. An answer of `n` or more counts as `n - 1`.
    fn pick(&mut self, n: u32) -> u32
        ensures first { IfSome (answers self.old) (λ told. result ≡ told 0) }
        ensures later { IfSome (answers self.old) (λ told.
            answers self.new ≡ Some (later_answers told)) };
}

/// Picks the first event.
#[derive(Clone, Copy, Debug)]
pub struct First;

impl Picker for First {
    ghost answers = { λ _. Some (λ _. 0) };

    fn pick(&mut self, _n: u32) -> u32 {
        0
    }
}

/// Picks the last event.
#[derive(Clone, Copy, Debug)]
pub struct Last;

impl Picker for Last {
    ghost answers = { λ _. Some (λ _. 4_294_967_295) };

    fn pick(&mut self, _n: u32) -> u32 {
        u32::MAX
    }
}

/// Gives the answers of a list in turn, and then 0.
#[derive(Debug, Drop)]
pub struct Script {
    answers: List<u32>,
    next: usize,
}

impl Model for Script {
    ghost use Rattle.std.specs.Prelude.{ℕ, List, drop};

    ghost Value = { List ℕ };

    ghost view = { λ script. drop script.next script.answers };
}

impl Script {
    /// A script of these answers.
    pub fn new(answers: List<u32>) -> Script
        ensures { result ≡ answers }
    {
        Script { answers, next: 0 }
    }
}

impl Picker for Script {
    ghost answers = { λ script. Some (script_answers script) };

    fn pick(&mut self, _n: u32) -> u32 {
        if self.answers.len() <= self.next {
            return 0;
        }
        let answer = *self.answers.get(self.next);
        self.next += 1;
        answer
    }
}
