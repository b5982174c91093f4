//! What follows from the answer to a task file, for all bytes.
//! This project's own.
ghost use Rattle.task_file.specs.Laws.{AcceptedFilesArePlans};

/// The parts of a file that passes every test keep the rules of a plan.
pub fn accepted_files_are_plans()
    ensures { AcceptedFilesArePlans }
{}
