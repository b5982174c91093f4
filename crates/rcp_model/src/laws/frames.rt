//! What follows from the definitions of rows, frames and histories.
//! This project's own.
ghost use Rattle.rcp_model.specs.HistoryLaws.{HistoriesGoByFrames};
ghost use Rattle.rcp_model.specs.RowLaws.{EachRowReadsBack};

/// A row that is written reads back at its place, and all else that the rows say is as before.
pub fn each_row_reads_back()
    ensures { EachRowReadsBack }
{}

/// States, commands, health and the guard by the number of a frame are those of the lists with the newest frame first.
pub fn histories_go_by_frames()
    ensures { HistoriesGoByFrames }
{}
