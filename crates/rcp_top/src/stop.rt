//! Why a call stops before it writes its text.
//! This project's own.
ghost use Rattle.std.specs.Prelude.{◌≡◌};
ghost use Rattle.task_file.specs.Fault.{is_file_memory};
ghost use Rattle.fault_journal.specs.Fault.{is_journal_memory};

use fault_journal::JournalFault;
use rcp_base::{List, Memory};
use rcp_model::{Node, Plan};
use task_file::FileFault;

/// What is refused: a file, or the pattern of a plan.
#[derive(Drop)]
pub enum Refusal {
    TaskFile(FileFault),
    /// The vote pattern has this unvoted cycle.
    Pattern { plan: Plan, cycle: List<Node> },
    Journal(JournalFault),
}

/// Why a call stops.
#[derive(Drop)]
pub enum Stop<'a> {
    /// The file under this word was not read.
    Unreadable(&'a str),
    Refused(Refusal),
    Memory,
}

impl<'a> From<Memory> for Stop<'a> {
    ghost use Rattle.std.specs.Prelude.{◌≡◌};
    ghost use Rattle.rcp_top.specs.declared.stop.Stop.TheVariants.{Memory};

    ghost from_gives = { λ _ stop. stop ≡ Memory };

    fn from(_: Memory) -> Stop<'a> {
        Stop::Memory
    }
}

impl<'a> From<FileFault> for Stop<'a> {
    ghost use Rattle.std.specs.Prelude.{◌≡◌};
    ghost use Rattle.rcp_top.specs.Stops.{file_stop};

    ghost from_gives = { λ fault stop. stop ≡ file_stop fault };

    fn from(fault: FileFault) -> Stop<'a> {
        if is_file_memory(&fault) {
            Stop::Memory
        } else {
            Stop::Refused(Refusal::TaskFile(fault))
        }
    }
}

impl<'a> From<JournalFault> for Stop<'a> {
    ghost use Rattle.std.specs.Prelude.{◌≡◌};
    ghost use Rattle.rcp_top.specs.Stops.{journal_stop};

    ghost from_gives = { λ fault stop. stop ≡ journal_stop fault };

    fn from(fault: JournalFault) -> Stop<'a> {
        if is_journal_memory(&fault) {
            Stop::Memory
        } else {
            Stop::Refused(Refusal::Journal(fault))
        }
    }
}

fn is_file_memory(fault: &FileFault) -> bool
    ensures { result ≡ is_file_memory fault.now }
{
    matches!(fault, FileFault::Memory)
}

fn is_journal_memory(fault: &JournalFault) -> bool
    ensures { result ≡ is_journal_memory fault.now }
{
    matches!(fault, JournalFault::Memory)
}
