//! What follows from the definitions of a journal, for every plan.
//! This project's own.
ghost use Rattle.fault_journal.specs.Laws.{JournalsGiveHistories};

/// A journal that passes each test gives the rows of frames of the plan, within the limits.
pub fn journals_give_histories()
    ensures { JournalsGiveHistories }
{}
