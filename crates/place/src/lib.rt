//! The place of a byte in a Pascal text: of a token, of a fault, of a site.
#![tactic(auto)]

ghost use Rattle.std.specs.Prelude.{◌≡◌, ◌+◌, ◌^◌, ◌<◌, ◌≤◌, length};

use std::fmt;

/// Where a byte stands in a text: its line and its column in bytes, both from 1. Byte 10 ends a line.
#[derive(Clone, Copy, Debug)]
pub struct Place {
    /// From 1 to 1,048,577, which is just past the longest text of line ends alone.
    pub line: u32,
    /// From 1 to 1,048,577, which is just past the longest text of one line.
    pub column: u32,
}

impl Place {
    ghost use Rattle.place.specs.Place.{place_after};

    /// Where a text begins.
    pub const START: Place = Place { line: 1, column: 1 };

    /// The place just past these bytes, which begin here.
    pub fn after(self, bytes: &[u8]) -> Place
        requires line_fits { self.line + length bytes.now < 2 ^ 32 }
        requires column_fits { self.column + length bytes.now < 2 ^ 32 }
        ensures place { result ≡ place_after self bytes.now }
        ensures line { result.line ≤ self.line + length bytes.now }
        ensures column { result.column ≤ self.column + length bytes.now }
    {
        let mut place = self;
        for byte in bytes {
            if *byte == b'\n' {
                place.line += 1;
                place.column = 1;
            } else {
                place.column += 1;
            }
        }
        place
    }
}

impl fmt::Display for Place {
    ghost use Rattle.std.specs.Prelude.{Some};
    ghost use Rattle.place.specs.Place.{place_text};

    ghost output = { λ place. Some (place_text place) };

    fn fmt<W: fmt::Write>(&self, f: &mut fmt::Formatter<W>) -> fmt::Result {
        let line = self.line;
        let column = self.column;
        write!(f, "{line}:{column}")
    }
}
