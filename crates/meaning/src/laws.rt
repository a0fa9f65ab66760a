//! What holds of the meaning of every program. Each law is the contract of a function that does nothing.
ghost use Rattle.meaning.specs.Laws.{TurnsGoOn, TurnsExtendTheOutput, EndingsStay, DepthsAreEnough, CallsReturn};
ghost use Rattle.meaning.specs.Laws.{StatementsUseTurnsExactly, ChainsGoLeftToRight, DeeperCallsChangeNothing};
ghost use Rattle.meaning.specs.Laws.{PiecesUseTurnsExactly, LoopsGoRoundByRound, FinishedTurnsAreOnlyTold};

/// A run with more turns goes on from where the run with fewer was: they are the same but for the turns that are left,
/// or the one with fewer stopped for want of turns, with an output that begins the other's.
pub fn turns_go_on()
    ensures { TurnsGoOn }
{}

/// With more turns the output only grows at its end.
pub fn turns_extend_the_output()
    ensures { TurnsExtendTheOutput }
{}

/// A run that ended for another reason than its turns ends so with more turns too.
pub fn endings_stay()
    ensures { EndingsStay }
{}

/// Where the bound on how deep activations stand in one another is greater than the turns that are left, a greater
/// bound changes nothing.
pub fn depths_are_enough()
    ensures { DepthsAreEnough }
{}

/// Behind a call that returns, the activations last that lasted before it.
pub fn calls_return()
    ensures { CallsReturn }
{}

/// Where a statement ends without stopping, as many turns as it used are enough, and none that are left change what it
/// does.
pub fn statements_use_turns_exactly()
    ensures { StatementsUseTurnsExactly }
{}

/// Where the beginning of a chain of operators stops, the chain stops there, whatever stands to the right.
pub fn chains_go_left_to_right()
    ensures { ChainsGoLeftToRight }
{}

/// Where the bound on how deep activations stand in one another is greater than the turns that are left, a statement
/// does the same under a greater bound.
pub fn deeper_calls_change_nothing()
    ensures { DeeperCallsChangeNothing }
{}

/// Where a piece of a program, as an expression or what is passed or written, gives a value, as many turns as it used
/// are enough, and none that are left change what it does.
pub fn pieces_use_turns_exactly()
    ensures { PiecesUseTurnsExactly }
{}

/// A loop is its first round, and then the loop again, if another round follows.
pub fn loops_go_round_by_round()
    ensures { LoopsGoRoundByRound }
{}

/// Which turns the `for` statements round a statement have finished changes nothing but what its entries tell of them.
pub fn finished_turns_are_only_told()
    ensures { FinishedTurnsAreOnlyTold }
{}
