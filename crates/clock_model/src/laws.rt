//! What follows from the moments of a frame, for every timing that keeps its rules.
//! After NASA TM-104196; the numbers and their formulas are this project's own.
ghost use Rattle.clock_model.specs.Laws.{HealthyPairsHear, MomentsKeepOrder, FramesFollowEachOther, MessagesMeetTwoWindows};

/// The message of a healthy replica arrives in the window that another healthy replica has in the same frame.
pub fn healthy_pairs_hear()
    ensures { HealthyPairsHear }
{}

/// Each replica's moments rise in their frame's block, and messages arrive before the next sends.
pub fn moments_keep_order()
    ensures { MomentsKeepOrder }
{}

/// All sync a frame before one begins the next, and its messages arrive before one sends in that.
pub fn frames_follow_each_other()
    ensures { FramesFollowEachOther }
{}

/// A message lies in its receiver's window of no frame but its own and the next.
pub fn messages_meet_two_windows()
    ensures { MessagesMeetTwoWindows }
{}
