ghost use Rattle.std.specs.Prelude.{◌≡◌, ◌≤◌, length};
ghost use Rattle.typed_tree.specs.Sites.{code_of, name_of, kind_of};

use place::Place;

/// A kind of error that a program may commit (ISO 7185:1990, 3.1), in the order of the numbers 1 to 13.
#[derive(Clone, Copy)]
pub enum SiteKind {
    /// An index outside its type.
    Index = 1,
    /// A value outside the type of its target.
    Subrange = 2,
    /// The use of an undefined variable.
    UndefinedVariable = 3,
    /// A function that ends without a result.
    UndefinedResult = 4,
    DivisionByZero = 5,
    /// A right operand of `mod` that is zero or less.
    ModByZeroOrLess = 6,
    /// A case index without its constant.
    Case = 7,
    Chr = 8,
    Succ = 9,
    Pred = 10,
    /// A result outside integer.
    Overflow = 11,
    /// A total width below 1.
    Width = 12,
    SetMember = 13,
}

impl SiteKind {
    /// Its number, from 1 to 13.
    pub fn number(self) -> u8
        ensures { result ≡ code_of self }
    {
        self as u8
    }

    /// The kind of a number from 1 to 13.
    pub fn with_number(number: u8) -> Option<SiteKind>
        ensures { result ≡ kind_of number }
    {
        match number {
            1 => Some(SiteKind::Index),
            2 => Some(SiteKind::Subrange),
            3 => Some(SiteKind::UndefinedVariable),
            4 => Some(SiteKind::UndefinedResult),
            5 => Some(SiteKind::DivisionByZero),
            6 => Some(SiteKind::ModByZeroOrLess),
            7 => Some(SiteKind::Case),
            8 => Some(SiteKind::Chr),
            9 => Some(SiteKind::Succ),
            10 => Some(SiteKind::Pred),
            11 => Some(SiteKind::Overflow),
            12 => Some(SiteKind::Width),
            13 => Some(SiteKind::SetMember),
            _ => None,
        }
    }

    /// Its name, as the programs print it.
    pub fn name(self) -> &'static str
        ensures name { result.now ≡ name_of self }
        ensures short { length result.now ≤ 19 }
    {
        match self {
            SiteKind::Index => "index",
            SiteKind::Subrange => "subrange",
            SiteKind::UndefinedVariable => "undefined variable",
            SiteKind::UndefinedResult => "undefined result",
            SiteKind::DivisionByZero => "division by zero",
            SiteKind::ModByZeroOrLess => "mod by zero or less",
            SiteKind::Case => "case",
            SiteKind::Chr => "chr",
            SiteKind::Succ => "succ",
            SiteKind::Pred => "pred",
            SiteKind::Overflow => "overflow",
            SiteKind::Width => "width",
            SiteKind::SetMember => "set member",
        }
    }
}

/// A place of the source at which a run may commit an error.
#[derive(Clone, Copy)]
pub struct Site {
    /// From 0, in the order of places and then of kinds.
    pub id: u32,
    pub kind: SiteKind,
    pub place: Place,
}

/// A use of read, readln or eoln, at which a run may stop for its input.
#[derive(Clone, Copy)]
pub struct Point {
    /// From 0, in the order of places.
    pub id: u32,
    pub place: Place,
}
