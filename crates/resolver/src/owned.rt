ghost use Rattle.resolver.specs.Made.{Boxes};

use declarations::Typed;
use std::alloc::Global;

/// What was made. Where it was refused the parts that were made before are let go by calls of `drop`, and the fault is
/// returned: a `?` lets them go itself, which takes four times as long to prove.
macro_rules! made_beside {
    ($made:expr, $($part:ident),+) => {
        match $made {
            Ok(made) => made,
            Err(fault) => {
                $(drop($part);)+
                return Err(fault);
            }
        }
    };
}

pub(crate) use made_beside;

/// What was made, in a box.
pub(crate) fn in_box<T: Drop>(alloc: Global, made: Typed<T>) -> Typed<Box<T>>
    ensures { Boxes made result }
{
    Ok(Box::new(alloc, made?)?)
}
