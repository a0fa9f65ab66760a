//! Texts that are put together of pieces. Whether one lacked memory is asked for once, behind all of them.

use std::alloc::{AllocError, Global};

// A text, and whether a piece of it found no memory.
#[derive(Drop)]
pub(crate) struct Text {
    pub(crate) bytes: Vec<u8>,
    pub(crate) refused: Option<AllocError>,
}

impl Text {
    pub(crate) fn new(alloc: Global) -> Text {
        Text {
            bytes: Vec::new(alloc),
            refused: None,
        }
    }

    pub(crate) fn put(&mut self, piece: &str) {
        if let Err(error) = self.bytes.extend_from_slice(piece.as_bytes()) {
            self.refused = Some(error);
        }
    }

    pub(crate) fn put_byte(&mut self, byte: u8) {
        if let Err(error) = self.bytes.push(byte) {
            self.refused = Some(error.into());
        }
    }

    // The bytes of a piece, the last one first.
    pub(crate) fn put_turned(&mut self, piece: &str) {
        for byte in piece.bytes().rev() {
            self.put_byte(byte);
        }
    }

    // A piece, and a number below 1,000 behind it.
    pub(crate) fn put_number(&mut self, piece: &str, number: usize) {
        self.put(piece);
        for unit in [100, 10, 1] {
            if number >= unit || unit == 1 {
                self.put_byte(b'0' + (number / unit % 10) as u8);
            }
        }
    }

    // The same, and the end of the line.
    pub(crate) fn put_line(&mut self, piece: &str, number: usize) {
        self.put_number(piece, number);
        self.put_byte(b'\n');
    }

    pub(crate) fn finish(self) -> Result<Vec<u8>, AllocError> {
        match self.refused {
            Some(error) => Err(error),
            None => Ok(self.bytes),
        }
    }
}
