//! What holds of the code of every program. Each law is the contract of a function that does nothing, or calls those
//! on which it rests.
ghost use Rattle.code_generator.specs.Laws.{ErrorsCome, FramesFit, StrippedFollows};

use crate::known::known;

/// The checks of sites at which a program never errs can be left out of its code: it follows the program then too.
pub fn stripped_follows()
    ensures { StrippedFollows }
{
    known();
}

/// The first frame of code that follows a program, which calls no routine without a turn, takes no more cells than the
/// program's block may need.
pub fn frames_fit()
    ensures { FramesFit }
{}

/// Where a program errs, a run of code that follows it writes the same and stops with the error of that site, if the
/// machine has enough cells for all activations that last together.
pub fn errors_come()
    ensures { ErrorsCome }
{}
