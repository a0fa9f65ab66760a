ghost use Rattle.std.specs.Prelude.{◌≡◌, [], ◌++◌, IfOk, decimal};
ghost use Rattle.std.specs.Fmt.{signed_decimal};

use itoa::Buffer;
use std::alloc::{AllocError, Global};

/// A text that grows. Where memory ran out it is short from then on, and nothing is known of it.
#[derive(Drop)]
pub struct Writer {
    text: Vec<u8>,
    refused: Option<AllocError>,
}

impl Writer {
    ghost use Rattle.text_lines.specs.Writing.{Appends, IsWhole, written};

    /// A text without a byte.
    pub fn new(alloc: Global) -> Writer
        ensures { written result ≡ [] }
    {
        Writer {
            text: Vec::new(alloc),
            refused: None,
        }
    }

    /// Appends bytes.
    pub fn append(&mut self, bytes: &[u8])
        ensures { Appends bytes.now self.old self.new }
    {
        if let Err(error) = self.text.extend_from_slice(bytes) {
            self.refused = Some(error);
        }
    }

    /// Appends bytes, and a number behind them.
    pub fn natural(&mut self, before: &[u8], number: u64)
        ensures { Appends (before.now ++ decimal number) self.old self.new }
    {
        let mut buffer = Buffer::new();
        self.append(before);
        self.append(buffer.format(number).as_bytes());
    }

    /// The same of a number that may have a minus.
    pub fn number(&mut self, before: &[u8], number: i64)
        ensures { Appends (before.now ++ signed_decimal number) self.old self.new }
    {
        let mut buffer = Buffer::new();
        self.append(before);
        self.append(buffer.format(number).as_bytes());
    }

    /// The whole text.
    ///
    /// # Errors
    /// `AllocError` where memory ran out.
    pub fn finish(self) -> Result<Vec<u8>, AllocError>
        ensures { IfOk result (λ text. IsWhole self × (text.items ≡ written self)) }
    {
        match self.refused {
            Some(error) => Err(error),
            None => Ok(self.text),
        }
    }
}
