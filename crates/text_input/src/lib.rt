//! What is read of an input (ISO 7185:1990, 6.4.3.5, 6.6.6.5, 6.9.1 and 6.9.2): the meaning and the machine say it with
//! the same words.
#![tactic(auto)]

/// What is wrong with the input where a run stops for it.
#[derive(Clone, Copy)]
pub enum InputFault {
    /// N1: a character, a number or a line end is needed, and nothing is left.
    EndOfInput,
    /// N2: no number stands there.
    NotANumber,
    /// N3: a number outside -2147483647 to 2147483647.
    NumberTooLarge,
    /// N4: a value outside the type of the variable that is read.
    OutsideType,
    /// N5: a byte above 127 that is read as a character.
    NotACharacter,
}
