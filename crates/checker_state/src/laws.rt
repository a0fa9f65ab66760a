//! What holds of states at the moments of a run. Each law is the contract of a function that does nothing.
ghost use Rattle.checker_state.specs.Laws.{AssignmentsHold, ConditionsTell, FormsTell, GivenHolds, HeadsHold};
ghost use Rattle.checker_state.specs.Laws.{GrowthsHold, JoinHolds, LeavingHolds, StoresHold, ValuesTell};

/// Where two ways meet, what is known behind them holds, whichever was taken.
pub fn join_holds()
    ensures { JoinHolds }
{}

/// Claims that a state gives hold where it does.
pub fn given_holds()
    ensures { GivenHolds }
{}

/// The value of an expression of a bound form is its bound.
pub fn forms_tell()
    ensures { FormsTell }
{}

/// After a value was written to a variable, what is known after its assignment holds.
pub fn assignments_hold()
    ensures { AssignmentsHold }
{}

/// Where a condition had a truth value, what is known of that branch holds.
pub fn conditions_tell()
    ensures { ConditionsTell }
{}

/// What is known at the head of a loop holds after any turns, if the claims of the certificate do.
pub fn heads_hold()
    ensures { HeadsHold }
{}

/// What is known of a control variable behind its loop holds: where it is its bound, and where it became undefined.
pub fn leaving_holds()
    ensures { LeavingHolds }
{}

/// What is known of variables that grow with the turns of a for statement holds: where they begin to, inside the
/// statement, where a turn begins and where it ends, and behind the statement.
pub fn growths_hold()
    ensures { GrowthsHold }
{}

/// After values were stored to components, what is known behind the stores holds.
pub fn stores_hold()
    ensures { StoresHold }
{}

/// What is known of the values of expressions, ordinals and sets, is so.
pub fn values_tell()
    ensures { ValuesTell }
{}
