//! Reads the files that the forms want. Touches no sink.
//! This project's own.
ghost use Rattle.std.specs.Prelude.{ℕ, List, Ok};
ghost use Rattle.rcp_base.specs.States.{IsLater};
ghost use Rattle.rcp_model.specs.History.{History};
ghost use Rattle.rcp_model.specs.declared.plan.PlanParts.{PlanParts};
ghost use Rattle.task_file.specs.TaskFile.{task_file_result};
ghost use Rattle.fault_journal.specs.History.{journal_result};
ghost use Rattle.rcp_top.specs.Finds.{Finds, IsSeenUpTo, TellsEnd};
ghost use Rattle.rcp_top.specs.Frames.{ShowsRun, run_of};
ghost use Rattle.rcp_top.specs.Reading.{End, file_at};
ghost use Rattle.rcp_top.specs.Read as spec;
ghost use Rattle.rcp_top.specs.Read.{IsJudged, IsJournal};

use crate::judge::{Judged, Judgement, judge};
use crate::stop::{Refusal, Stop};
use fault_journal::Journal;
use rcp_base::{Folder, MAX_JOURNAL, MAX_TASK_FILE, ReadError};
use rcp_model::Plan;
use recovery_analysis::Verdict;
use std::alloc::Global;
use task_file::read_plan;

/// A plan with its recovery length, a journal of it before its first frame, and what is asked of them.
#[derive(Drop)]
pub struct RunFiles<W> {
    pub judged: Judged,
    pub journal: Journal,
    pub asked: W,
}

/// Reads the plan and the journal.
pub fn read_run<'a, F: Folder, W: Copy>(
    alloc: Global,
    folder: &mut F,
    file: &'a str,
    journal: &'a str,
    asked: W,
) -> Result<RunFiles<W>, Stop<'a>>
    ensures finds { (text_for : W → PlanParts → History → List ℕ)
        → Finds (ShowsRun text_for) (F.state folder.old) (F.state folder.new)
        (run_of (text_for asked) file.now journal.now) result }
    ensures later { IsLater (F.state folder.old) (F.state folder.new) }
{
    let judged = read_plan_at(alloc, folder, file)?;
    let journal = read_journal_at(alloc, folder, &judged.plan, journal)?;
    Ok(RunFiles {
        judged,
        journal,
        asked,
    })
}

/// The bytes of a file, or more than the limit of them where it has more.
fn read_file<'a, F: Folder>(
    alloc: Global,
    folder: &mut F,
    name: &'a str,
    limit: u64,
) -> Result<Vec<u8>, Stop<'a>>
    ensures finds { Finds (λ seen. IsSeenUpTo limit seen.items)
        (F.state folder.old) (F.state folder.new) (file_at name.now) result }
    ensures later { IsLater (F.state folder.old) (F.state folder.new) }
{
    let mut bytes = Vec::new(alloc);
    match folder.read(alloc, name, limit, &mut bytes) {
        Ok(()) | Err(ReadError::TooLong) => Ok(bytes),
        Err(ReadError::Failed) => Err(Stop::Unreadable(name)),
        Err(ReadError::Memory) => Err(Stop::Memory),
    }
}

/// The plan of a task file whose pattern is not refused.
pub fn read_plan_at<'a, F: Folder>(
    alloc: Global,
    folder: &mut F,
    file: &'a str,
) -> Result<Judged, Stop<'a>>
    ensures finds { Finds IsJudged (F.state folder.old) (F.state folder.new)
        (spec.plan_at file.now) result }
    ensures later { IsLater (F.state folder.old) (F.state folder.new) }
{
    let bytes = read_file(alloc, folder, file, MAX_TASK_FILE)?;
    plan_in(alloc, bytes.as_slice())
}

/// The journal of a plan.
pub fn read_journal_at<'a, F: Folder>(
    alloc: Global,
    folder: &mut F,
    plan: &Plan,
    journal: &'a str,
) -> Result<Journal, Stop<'a>>
    ensures finds { Finds (IsJournal plan.now) (F.state folder.old) (F.state folder.new)
        (spec.history_at plan.now journal.now) result }
    ensures later { IsLater (F.state folder.old) (F.state folder.new) }
{
    let bytes = read_file(alloc, folder, journal, MAX_JOURNAL)?;
    journal_in(alloc, plan, bytes.as_slice())
}

fn plan_in<'a>(alloc: Global, bytes: &[u8]) -> Result<Judged, Stop<'a>>
    ensures { TellsEnd IsJudged result (End.gave (spec.good_plan (task_file_result bytes.now))) }
{
    let plan = read_plan(alloc, bytes)?;
    judged(alloc, plan)
}

fn judged<'a>(alloc: Global, plan: Plan) -> Result<Judged, Stop<'a>>
    ensures { TellsEnd IsJudged result (End.gave (spec.good_plan (Ok plan))) }
{
    let Judgement { rows, verdict } = judge(alloc, &plan)?;
    match verdict {
        Verdict::Recovers { length, walk } => Ok(Judged {
            plan,
            rows,
            length,
            walk,
        }),
        Verdict::Cycle { nodes } => Err(Stop::Refused(Refusal::Pattern { plan, cycle: nodes })),
    }
}

fn journal_in<'a>(alloc: Global, plan: &Plan, bytes: &[u8]) -> Result<Journal, Stop<'a>>
    ensures { TellsEnd (IsJournal plan.now) result
        (End.gave (spec.good_history (journal_result plan.now bytes.now))) }
{
    Ok(Journal::check(alloc, plan, bytes)?)
}
