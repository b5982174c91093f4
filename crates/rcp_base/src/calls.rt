//! Calls that are counted, and fail where they are told to.
//! This project's own.
ghost use Rattle.std.specs.Prelude.{◌≡◌, ◌≤◌, OnSome, OnOk, OnErr};
ghost use Rattle.rcp_base.specs.Files.{Rises};
ghost use Rattle.rcp_base.specs.Calls as spec;
ghost use Rattle.rcp_base.specs.Calls.{no_calls, with_failure, next_failure, after_call};

use crate::Memory;
use std::alloc::Global;
use std::marker::Model;

/// A failure of a call, and how many bytes the call takes first.
#[derive(Clone, Copy)]
pub struct Failure {
    call: u32,
    after: u32,
}

/// How many calls there were, which are to fail, and how many have.
#[derive(Drop)]
pub struct Calls {
    done: u64,
    failures: Vec<Failure>,
    faults: u64,
}

impl Model for Calls {
    ghost use Rattle.rcp_base.specs.Calls.{CallState};

    ghost Value = { CallState };

    ghost view = { λ calls. record { done = calls.done; failures = calls.failures.items; faults = calls.faults } };
}

impl Calls {
    pub fn new(alloc: Global) -> Calls
        ensures { result ≡ no_calls }
    {
        Calls {
            done: 0,
            failures: Vec::new(alloc),
            faults: 0,
        }
    }

    /// Lists a failure. Of two for one call the first counts.
    pub fn fail_at(&mut self, call: u32, after: u32) -> Result<(), Memory>
        ensures ok { OnOk result (self.new ≡ with_failure self.old call after) }
        ensures err { OnErr result (self.new ≡ self.old) }
    {
        self.failures.push(Failure { call, after })?;
        Ok(())
    }

    /// Counts one more call, and says after how many bytes it fails, if it does.
    pub fn next(&mut self) -> Option<u32>
        ensures failure { result ≡ next_failure self.old }
        ensures counted { self.new ≡ after_call self.old }
        ensures later { self.old.faults ≤ self.new.faults }
        ensures raised { OnSome result (Rises self.old.faults self.new.faults) }
    {
        self.done = self.done.saturating_add(1);
        let failure = failure_at(self.failures.as_slice(), self.done);
        if failure.is_some() {
            self.faults = self.faults.saturating_add(1);
        }
        failure
    }
}

fn failure_at(failures: &[Failure], call: u64) -> Option<u32>
    ensures { result ≡ spec.failure_at failures.now call }
{
    first_failure(failures, u32::try_from(call).ok()?)
}

fn first_failure(failures: &[Failure], call: u32) -> Option<u32>
    ensures { result ≡ spec.first_failure failures.now call }
{
    failures
        .iter()
        .find(|failure| failure.call == call)
        .map(|failure| failure.after)
}
