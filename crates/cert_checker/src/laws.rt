//! What a verdict by the walk promises of each run, and a certificate that the walk accepts. Each law is the contract
//! of a function that does nothing.
ghost use Rattle.cert_checker.specs.Laws.{CallsKeepToLists, EntriesAreLinked, ErrorsAreOpen, LinkedStatesHold};
ghost use Rattle.cert_checker.specs.Plain.{PlainIsAccepted};

/// Each error of a run is at an open site, if the certificate is valid.
pub fn errors_are_open()
    ensures { ErrorsAreOpen }
{}

/// Each state that is linked to an entry holds there.
pub fn linked_states_hold()
    ensures { LinkedStatesHold }
{}

/// A call changes only what its block lists.
pub fn calls_keep_to_lists()
    ensures { CallsKeepToLists }
{}

/// Each entry of a block and of the program has its state, once and in their order.
pub fn entries_are_linked()
    ensures { EntriesAreLinked }
{}

/// A certificate without facts breaks no rule, if it lists each pair and each change that it may.
pub fn plain_is_accepted()
    ensures { PlainIsAccepted }
{}
