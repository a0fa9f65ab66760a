ghost use Rattle.std.specs.Prelude.{◌≡◌, ◌∷◌, ◌≤◌, [], MatchOption};
ghost use Rattle.text_input.specs.Input.{completed, digits, is_at_end, number, read_eoln, read_integer, read_line};
ghost use Rattle.text_input.specs.Input.{unsigned_at};
ghost use Rattle.interpreter_state.specs.Views.{character_read, left_in, looked, passed, read_by, told};

use text_input::InputFault;
use typed_tree::Readable;

// The number at which one is held that is greater than each of type integer.
const TOO_LARGE: u64 = 2_147_483_648;

/// The input that is left.
#[derive(Clone, Copy)]
pub struct Input<'i> {
    bytes: &'i [u8],
    // A line end has to be supplied behind them.
    lacks_end: bool,
}

impl<'i> Input<'i> {
    /// A whole input.
    pub fn new(bytes: &'i [u8]) -> Input<'i>
        ensures { left_in result ≡ completed bytes.now }
    {
        match bytes.split_last() {
            Some((last, _)) => Input {
                bytes,
                lacks_end: *last != b'\n',
            },
            None => Input {
                bytes,
                lacks_end: false,
            },
        }
    }

    /// Whether nothing is left (ISO 7185:1990, 6.6.6.5).
    pub fn is_at_end(self) -> bool
        ensures { result ≡ is_at_end (left_in self.entry) }
    {
        self.next().is_none()
    }

    /// Whether a line ends here (6.6.6.5).
    pub fn is_at_line_end(self) -> Result<bool, InputFault>
        ensures { read_eoln (left_in self.entry) ≡ looked self.entry result }
    {
        let (byte, _) = self.next().ok_or(InputFault::EndOfInput)?;
        Ok(byte == b'\n')
    }

    /// What is left behind the next line end (6.9.2).
    pub fn behind_line(self) -> Result<Input<'i>, InputFault>
        ensures { read_line (left_in self.entry) ≡ passed result }
    {
        let mut left = self;
        while let Some((byte, rest)) = left.next() {
            if byte == b'\n' {
                return Ok(rest);
            }
            left = rest;
        }
        Err(InputFault::EndOfInput)
    }

    /// An integer, or a character by its ordinal number, and what is left behind it (6.9.1).
    pub fn read(self, reads: Readable) -> Result<(i32, Input<'i>), InputFault>
        ensures { read_by reads (left_in self.entry) ≡ told result }
    {
        match reads {
            Readable::Integer => self.integer(),
            Readable::Char => self.character(),
        }
    }

    // A character; a line end is read as a space.
    fn character(self) -> Result<(i32, Input<'i>), InputFault>
        ensures { character_read (left_in self.entry) ≡ told result }
    {
        match self.next() {
            Some((b'\n', rest)) => Ok((32, rest)),
            Some((byte, rest)) if byte <= 127 => Ok((i32::from(byte), rest)),
            Some(_) => Err(InputFault::NotACharacter),
            None => Err(InputFault::EndOfInput),
        }
    }

    // An integer, behind spaces and line ends.
    fn integer(self) -> Result<(i32, Input<'i>), InputFault>
        ensures { read_integer (left_in self.entry) ≡ told result }
    {
        let mut left = self;
        while let Some((byte, rest)) = left.next() {
            match byte {
                b' ' | b'\n' => left = rest,
                b'-' => return rest.unsigned(true),
                b'+' => return rest.unsigned(false),
                _ => return left.unsigned(false),
            }
        }
        Err(InputFault::EndOfInput)
    }

    // Digits, at least one.
    fn unsigned(self, is_negative: bool) -> Result<(i32, Input<'i>), InputFault>
        ensures { unsigned_at is_negative (left_in self.entry) ≡ told result }
    {
        match self.next() {
            Some((digit @ b'0'..=b'9', rest)) => rest.digits(is_negative, digit - b'0'),
            Some(_) => Err(InputFault::NotANumber),
            None => Err(InputFault::EndOfInput),
        }
    }

    // The digits behind the first one, all of them; the byte behind the last one is looked at.
    fn digits(self, is_negative: bool, first: u8) -> Result<(i32, Input<'i>), InputFault>
        ensures { digits is_negative first (left_in self.entry) ≡ told result }
    {
        let mut magnitude = u64::from(first);
        let mut left = self;
        while let Some((byte, rest)) = left.next() {
            match byte {
                b'0'..=b'9' => {
                    magnitude = (magnitude * 10 + u64::from(byte - b'0')).min(TOO_LARGE);
                    left = rest;
                }
                _ => return left.behind_number(is_negative, magnitude),
            }
        }
        Err(InputFault::EndOfInput)
    }

    // A number with its sign, if it is of type integer, which stands before what is left.
    fn behind_number(
        self,
        is_negative: bool,
        magnitude: u64,
    ) -> Result<(i32, Input<'i>), InputFault>
        ensures { number is_negative magnitude (left_in self.entry) ≡ told result }
    {
        match i32::try_from(magnitude) {
            Ok(number) if is_negative => Ok((-number, self)),
            Ok(number) => Ok((number, self)),
            Err(_) => Err(InputFault::NumberTooLarge),
        }
    }

    // The next byte, and what is left behind it.
    fn next(self) -> Option<(u8, Input<'i>)>
        ensures { MatchOption result (left_in self.entry ≡ []) (λ next. left_in self.entry ≡ next.0 ∷ left_in next.1) }
    {
        match self.bytes.split_first() {
            Some((byte, bytes)) => Some((
                *byte,
                Input {
                    bytes,
                    lacks_end: self.lacks_end,
                },
            )),
            None if self.lacks_end => Some((
                b'\n',
                Input {
                    bytes: self.bytes,
                    lacks_end: false,
                },
            )),
            None => None,
        }
    }
}
