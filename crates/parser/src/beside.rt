ghost use Rattle.parser.specs.Both.{StandsBeside};

use token_cursor::Read;

/// What was made, and what a rule read behind it, if it read something.
pub(crate) fn beside<A: Drop, B: Drop>(made: A, found: Read<B>) -> Read<(A, B)>
    ensures { StandsBeside made found result }
{
    Ok((made, found?))
}

/// What was read. Where it was refused what was read before it is let go by calls of `drop`, and the refusal is
/// returned: a `?` lets each part of it go itself, which takes up to three times as long to prove.
macro_rules! made_beside {
    ($made:expr, $($part:ident),+) => {
        match $made {
            Ok(made) => made,
            Err(refusal) => {
                $(drop($part);)+
                return Err(refusal);
            }
        }
    };
}

pub(crate) use made_beside;
