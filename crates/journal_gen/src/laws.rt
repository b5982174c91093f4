//! What follows from the definition of a generated journal, for every plan and every number.
//! This project's own.
ghost use Rattle.journal_gen.specs.Laws.{GeneratedJournalsAreAccepted, GeneratedJournalsAreGuarded};

/// A generated journal passes each test of a journal, and has as many frames as were asked for.
pub fn generated_journals_are_accepted()
    ensures { GeneratedJournalsAreAccepted }
{}

/// The guard holds in each of its frames, for every number of replicas.
pub fn generated_journals_are_guarded()
    ensures { GeneratedJournalsAreGuarded }
{}
