//! What holds of every run. Each law is the contract of a function that does nothing.
ghost use Rattle.stack_machine.specs.Laws.{RunsCompose, OutputOnlyGrows, ReadFailuresBegin, RunsOnBytes};

/// So many instructions, and then more from the state that they reach, are a run of both numbers together.
pub fn runs_compose()
    ensures { RunsCompose }
{}

/// With a greater budget the output only grows at its end.
pub fn output_only_grows()
    ensures { OutputOnlyGrows }
{}

/// A run on a reader whose bytes are known, which didn't fail, is the run on these bytes.
pub fn runs_on_bytes()
    ensures { RunsOnBytes }
{}

/// A run on a reader that fails behind what it gave is the run on each input that begins so; where the reader failed,
/// it is that of some number of instructions, which goes on.
pub fn read_failures_begin()
    ensures { ReadFailuresBegin }
{}
