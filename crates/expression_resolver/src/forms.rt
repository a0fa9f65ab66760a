ghost use Rattle.std.specs.Prelude.{◌≡◌, Ok, Err, IfOk, MatchResult, map};
ghost use Rattle.typing_rules.specs.Checked.{fits};
ghost use Rattle.typing.specs.Expressions as spec;
ghost use Rattle.expression_resolver.specs.Made.{IsOnly};

use place::Place;
use syntax_tree::{Actual, Expr};
use typed_tree::TypeFault;
use typing::Made;

/// Where an expression begins.
#[tactic(auto, using(typing::proofs::Written::written_expressions))]
pub fn first_place(written: &Expr) -> Place
    ensures { result ≡ (spec.expression written.now).first }
{
    match written {
        Expr::Number { place, .. }
        | Expr::String { place, .. }
        | Expr::Not { place, .. }
        | Expr::Signed { place, .. } => *place,
        Expr::Name(name) | Expr::Component { name, .. } | Expr::Call { name, .. } => name.place,
        Expr::Parenthesized { open, .. } | Expr::Set { open, .. } => *open,
        Expr::Chain { first, .. } => first_place(first),
        Expr::Relation { left, .. } => first_place(left),
    }
}

/// The one actual of a function, which has no width.
#[tactic(auto, using(crate::proofs::Only::only_one))]
pub(crate) fn only<'e, 'a>(place: Place, actuals: &'e [Actual<'a>]) -> Made<&'e Expr<'a>>
    ensures one { IfOk result (λ value. IsOnly actuals.now value.now) }
    ensures only { MatchResult result
        (λ value. spec.only place (map spec.written_actual actuals.now) ≡ Ok (spec.expression value.now))
        (λ why. spec.only place (map spec.written_actual actuals.now) ≡ Err why) }
{
    let [actual] = actuals else {
        return Err(TypeFault::WrongParameters(place));
    };
    if actual.width.is_some() {
        return Err(TypeFault::WrongParameters(place));
    }
    Ok(&actual.value)
}

/// What is told where it fits: K1 at the place where it doesn't.
pub(crate) fn fits<T: Copy>(test: bool, place: Place, told: T) -> Made<T>
    ensures { result ≡ fits test place told }
{
    test.then_some(told).ok_or(TypeFault::Mismatch(place))
}
