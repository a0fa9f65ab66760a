ghost use Rattle.std.specs.Prelude.{◌≡◌};
ghost use Rattle.domain.specs.Versions.{has, number, since};

/// The version of a certificate, which its first line names.
#[derive(Clone, Copy)]
pub enum Version {
    /// `pcert 1`.
    One,
    /// `pcert 2`.
    Two,
    /// `pcert 3`.
    Three,
}

/// What certificates have from some version on.
#[derive(Clone, Copy)]
pub enum Extension {
    /// Blocks: defined elements of a matrix, by both their indexes.
    Blocks,
    /// Growths: how variables change with the turns of a for statement.
    Growths,
    /// Constants: numbers that are calculated from constants alone are constants too.
    Constants,
    /// Boxes: what is known of components of elements, by the indexes on the way to them.
    Boxes,
    /// Sides: what a condition tells of one side of a relation, by what is known of the other.
    Sides,
    /// Calls: an index keeps its bound form behind calls that don't touch the variable of that.
    Calls,
}

impl Version {
    /// Whether certificates of the version have the extension.
    pub fn has(self, extension: Extension) -> bool
        ensures { result ≡ has self extension }
    {
        extension.since() <= self.number()
    }

    /// Its number.
    fn number(self) -> u8
        ensures { result ≡ number self }
    {
        match self {
            Version::One => 1,
            Version::Two => 2,
            Version::Three => 3,
        }
    }
}

impl Extension {
    /// The number of the first version that has it.
    fn since(self) -> u8
        ensures { result ≡ since self }
    {
        match self {
            Extension::Blocks | Extension::Growths => 2,
            Extension::Constants | Extension::Boxes => 3,
            Extension::Sides | Extension::Calls => 3,
        }
    }
}
