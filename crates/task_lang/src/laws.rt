//! What the readers of the task language answer, for all tokens.
//! This project's own.
ghost use Rattle.std.specs.Prelude.{ℕ, List};
ghost use Rattle.task_lang.specs.Readings.{ExpressionsAreRead, BodiesAreRead, ExpressionsHaveOneAnswer, BodiesHaveOneAnswer, TokensStandIn, ExpressionTextsAreRead, BodyTextsAreRead, ExpressionAnswersAreRead, BodyAnswersAreRead, NamesMoveNoExpressionFault, NamesMoveNoBodyFault};
ghost use Rattle.task_lang.specs.ReadBack.{PrintedTasksReadBack};
ghost use Rattle.task_lang.specs.PlanRules.{ExpressionsKeepRules, BodiesKeepRules, BodiesKeepNames};
ghost use Rattle.task_lang.specs.RightNames.{ExpressionNamesAreScanned, BodyNamesAreScanned, KnownNamesStand, ExpressionsHaveNoTargets};

/// An expression has one tree at most, and where it has none the fault is at the first token with which none goes on.
pub fn expressions_are_read()
    ensures { ExpressionsAreRead }
{}

/// A body has one list of statements at most, and where it has none the fault is at the first token with which none goes on.
pub fn bodies_are_read()
    ensures { BodiesAreRead }
{}

/// A text has one answer as an expression, and one as a body, unless memory runs out.
pub fn texts_have_one_answer()
    ensures expressions { ExpressionsHaveOneAnswer }
    ensures bodies { BodiesHaveOneAnswer }
{}

/// Each token of a text begins at a byte of it.
pub fn tokens_stand_in_their_text()
    ensures { (text : List ℕ) → TokensStandIn text }
{}

/// The readers of texts answer each as an expression and as a body.
pub fn texts_are_read()
    ensures expressions { ExpressionTextsAreRead }
    ensures bodies { BodyTextsAreRead }
{}

/// A right answer to a text is that of the reader of texts, unless memory ran out.
pub fn right_answers_are_read()
    ensures expressions { ExpressionAnswersAreRead }
    ensures bodies { BodyAnswersAreRead }
{}

/// Where tokens go wrong does not hang on the names of sensors, cells and lets.
pub fn names_move_no_fault()
    ensures expressions { NamesMoveNoExpressionFault }
    ensures bodies { NamesMoveNoBodyFault }
{}

/// What is printed of a task that was read is at most four times as long, and is read again as the same task.
pub fn printed_task_reads_back()
    ensures { PrintedTasksReadBack }
{}

/// The scan of names finds nothing exactly where the grammar has each name in scope where it is used, and each
/// statement names what it may. A name in scope is the number of its sensor, cell or let. An expression names no target.
pub fn names_are_scanned()
    ensures expressions { ExpressionNamesAreScanned }
    ensures bodies { BodyNamesAreScanned }
    ensures known { KnownNamesStand }
    ensures targets { ExpressionsHaveNoTargets }
{}

/// What is read of a text keeps the rules of a plan, and a task has the name that it was read for.
pub fn read_tasks_keep_rules()
    ensures expressions { ExpressionsKeepRules }
    ensures bodies { BodiesKeepRules }
    ensures names { BodiesKeepNames }
{}
