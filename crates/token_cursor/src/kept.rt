ghost use Rattle.token_cursor.specs.Kept.{Boxes, Puts};

use crate::Read;
use std::alloc::Global;

/// Puts what a rule read behind the others, if it read something.
pub fn put<T: Drop>(list: &mut Vec<T>, found: Read<T>) -> Read<()>
    ensures { Puts list.old.items found result list.new.items }
{
    list.push(found?)?;
    Ok(())
}

/// What a rule read, in a box.
pub fn boxed<T: Drop>(alloc: Global, found: Read<T>) -> Read<Box<T>>
    ensures { Boxes found result }
{
    Ok(Box::new(alloc, found?)?)
}
