//! What follows from the definitions of unvoted walks, for all graphs.
//! This project's own.
ghost use Rattle.rcp_model.specs.GraphLaws.{CycleIffLongWalk, EachWitnessIsUnique, TheRecoveryLengthIsOne, TheTestFindsCycles, TheWitnessIsACycle};

/// There is an unvoted cycle exactly where there is an unvoted walk of more nodes than there are.
pub fn cycle_iff_long_walk()
    ensures { CycleIffLongWalk }
{}

/// A graph has a cycle by the test exactly where there is an unvoted cycle.
pub fn the_test_finds_cycles()
    ensures { TheTestFindsCycles }
{}

/// The cycle that is shown is an unvoted cycle.
pub fn the_witness_is_a_cycle()
    ensures { TheWitnessIsACycle }
{}

/// There is one cycle that is shown, and one walk of each number of nodes.
pub fn each_witness_is_unique()
    ensures { EachWitnessIsUnique }
{}

/// A graph has one recovery length.
pub fn recovery_length_is_one()
    ensures { TheRecoveryLengthIsOne }
{}
