use pcode_assembler::{Point, Site};
use text_input::InputFault;

/// Why a run ended.
#[derive(Clone, Copy)]
pub enum Stop {
    /// The code came to its end.
    Finished,
    /// The program committed the error of this site.
    Error(Site),
    /// The input was at fault where this point wanted it.
    Input { point: Point, fault: InputFault },
    /// The budget of instructions was used up.
    More,
    /// The next frame doesn't fit into the store.
    StoreFull,
    /// The code did what no code of a program does.
    Fault(MachineFault),
    /// The reader failed.
    ReadFailed,
    /// The writer failed.
    WriteFailed,
}

/// What was wrong with the code. Of several faults at one instruction the first of these is told.
#[derive(Clone, Copy)]
pub enum MachineFault {
    /// M1: an instruction would take or look at one of the first four cells of its frame.
    Underflow,
    /// M2: an address or a link that isn't in use, a push at the frame's limit, or an instruction that
    /// isn't there.
    OutOfBounds,
    /// M3: a cell of the wrong kind.
    WrongKind,
    /// M4: a division by zero, or a modulo by zero or less.
    WrongDivisor,
}
