ghost use Rattle.std.specs.Prelude.{◌≡◌, ◌+◌, IfErr, IfOk};

use place::Place;
use reading::refusal::Refusal;

/// How deep a program may nest. Its own compound statement is the first level; each statement in
/// another statement, each actual with its width, each index expression, each member of a set, each
/// expression in parentheses and each operand of `not` is one level below what it stands in. So is
/// each type denoter in another one, of which the outermost is the first level. The block of a
/// procedure or function is one level below the block that it is declared in.
pub const MAX_NESTING: u32 = 128;

/// The levels that are left inside the next one, which begins at `place`, or at the end of the text where there is no
/// place; P2 where none is left.
pub fn inside(levels: u32, place: Option<Place>) -> Result<u32, Refusal>
    ensures left { IfOk result (λ left. left + 1 ≡ levels) }
    ensures spent { IfErr result (λ refusal. (levels ≡ 0) × (refusal ≡ Refusal.TooDeep place)) }
{
    levels.checked_sub(1).ok_or(Refusal::TooDeep(place))
}
