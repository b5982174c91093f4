//! What follows from the definition of dependence, for every plan.
//! This project's own.
ghost use Rattle.task_graph.specs.Laws.{FeedingCellsDecide, FeedingIsAWay};

/// What a slot makes of a cell is decided by the cells that feed it.
pub fn feeding_cells_decide()
    ensures { FeedingCellsDecide }
{}

/// One cell feeds another exactly where there is a way from the one to the other.
pub fn feeding_is_a_way()
    ensures { FeedingIsAWay }
{}
