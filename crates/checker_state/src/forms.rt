ghost use Rattle.std.specs.Prelude.{◌≡◌, ◌*ℤ◌, false};
ghost use Rattle.checker_state.specs.Conditions.{bound_form, condition_of};
ghost use Rattle.checker_state.specs.Forms.{access_form, bound_of, computed, fixed_form, moved_form, offset_form};
ghost use Rattle.checker_state.specs.Forms.{operated_form, operated_spelling, quotient, remainder, result_of, root_of};
ghost use Rattle.checker_state.specs.Forms.{sign_form, stands};
ghost use Rattle.checker_rows.specs.Rows.{is_ordinal_variable};
ghost use Rattle.meaning.specs.Integers.{integer_or_none};
ghost use Rattle.meaning.specs.Meaning.{calculated, shifted};
ghost use Rattle.typed_tree.specs.Accesses.{AtVariable, origin_of};
ghost use Rattle.checker_state.specs.View.{said_form};

use crate::Bound;
use checker_rows::Rows;
use domain::{Extension, Version};
use meaning::Ordinal;
use typed_tree::{Access, Base, Calculation, Dyadic, Expr, Monadic, Shift};

/// How the number of a constant is spelled.
#[derive(Clone, Copy)]
pub enum Spelling {
    /// As a constant without a sign.
    Literal,
    /// With a sign before it.
    Signed,
    /// As a calculation with constants alone.
    Computed,
}

/// The form of an expression, as far as it is part of a bound form (ISO 7185:1990, 6.7.1).
#[derive(Clone, Copy)]
pub enum Form {
    /// A constant.
    Fixed {
        spelling: Spelling,
        number: i32,
    },
    /// An entire ordinal variable, by its root number.
    Entire {
        root: u32,
    },
    /// Such a variable plus a number.
    Moved {
        root: u32,
        spelling: Spelling,
        number: i32,
    },
    /// Any other.
    Other,
}

/// The bound that an expression is by the rules of a version of certificates: a constant, an entire ordinal variable,
/// or such a variable plus or minus such a constant. `None`: it has another form.
pub fn bound_form(version: Version, rows: &Rows, expression: &Expr) -> Option<Bound>
    ensures { said_form result ≡ bound_form (is_ordinal_variable rows.now) version expression.now }
{
    Form::of(rows, expression).bound(version)
}

/// An entire variable, by its root number.
pub fn entire(rows: &Rows, expression: &Expr) -> Option<u32>
    ensures { result ≡ root_of (condition_of (is_ordinal_variable rows.now) expression.now).form }
{
    match expression {
        Expr::Variable { access, .. } => Form::of_access(rows, access).root(),
        Expr::Chain { rest, .. } => {
            if rest.is_empty() {
                Form::of(rows, expression).root()
            } else {
                None
            }
        }
        Expr::Monadic { .. } => None,
        Expr::Constant { .. } => None,
        Expr::Set { .. } => None,
        Expr::Compare { .. } => None,
        Expr::Call { .. } => None,
        Expr::Input { .. } => None,
    }
}

impl Form {
    /// The form of an expression.
    fn of(rows: &Rows, expression: &Expr) -> Form
        ensures { result ≡ (condition_of (is_ordinal_variable rows.now) expression.now).form }
    {
        match expression {
            Expr::Constant { value, .. } => Form::Fixed {
                spelling: Spelling::Literal,
                number: *value,
            },
            Expr::Variable { access, .. } => Form::of_access(rows, access),
            Expr::Monadic {
                operation,
                operand,
                ..
            } => Form::of(rows, operand).signed(*operation),
            Expr::Chain { first, rest } => {
                let mut form = Form::of(rows, first);
                for link in rest {
                    if !form.goes_on(link.operation) {
                        return Form::Other;
                    }
                    form = form.operated(link.operation, Form::of(rows, &link.operand));
                }
                form
            }
            Expr::Set { .. } => Form::Other,
            Expr::Compare { .. } => Form::Other,
            Expr::Call { .. } => Form::Other,
            Expr::Input { .. } => Form::Other,
        }
    }

    // The variable that is accessed, if it is an ordinal and accessed as a whole.
    fn of_access(rows: &Rows, access: &Access) -> Form
        ensures { result
            ≡ access_form (is_ordinal_variable rows.now) (origin_of access.now) access.now.selectors.items }
    {
        match &access.base {
            Base::Variable => Form::of_variable(rows, access),
            Base::Record { .. } => Form::Other,
        }
    }

    // The same where it is accessed from its beginning.
    fn of_variable(rows: &Rows, access: &Access) -> Form
        ensures { result ≡ access_form (is_ordinal_variable rows.now) (AtVariable access.now.root)
            access.now.selectors.items }
    {
        if access.selectors.is_empty() && rows.is_ordinal_variable(access.root) {
            Form::Entire { root: access.root }
        } else {
            Form::Other
        }
    }

    // A number, if there is one.
    fn fixed(spelling: Spelling, number: Option<i32>) -> Form
        ensures { result ≡ fixed_form spelling number }
    {
        match number {
            Some(number) => Form::Fixed { spelling, number },
            None => Form::Other,
        }
    }

    // An operation on one operand.
    fn signed(self, operation: Monadic) -> Form
        ensures { result ≡ sign_form self operation }
    {
        match self {
            Form::Fixed { spelling, number } => Form::fixed(
                operated_spelling(operation, spelling),
                integer(result_of(operation, number)),
            ),
            Form::Entire { .. } => Form::Other,
            Form::Moved { .. } => Form::Other,
            Form::Other => Form::Other,
        }
    }

    // The variable that it is, by its root number.
    fn root(self) -> Option<u32>
        ensures { result ≡ root_of self }
    {
        match self {
            Form::Entire { root } => Some(root),
            Form::Fixed { .. } | Form::Moved { .. } | Form::Other => None,
        }
    }

    // Whether an operator behind it may make another form of it.
    fn goes_on(self, operation: Dyadic) -> bool
        ensures { (right : Form) → result ≡ false → operated_form operation self right ≡ Form.Other }
    {
        match (self, operation) {
            (
                Form::Fixed { .. } | Form::Entire { .. },
                Dyadic::Plus { .. } | Dyadic::Minus { .. },
            ) => true,
            (Form::Fixed { .. }, Dyadic::Times { .. } | Dyadic::Div { .. } | Dyadic::Mod { .. }) =>
                true,
            _ => false,
        }
    }

    // An operator between two operands.
    fn operated(self, operation: Dyadic, right: Form) -> Form
        ensures { result ≡ operated_form operation self right }
    {
        match (self, right) {
            (Form::Fixed { number: left, .. }, Form::Fixed { number: right, .. }) => {
                Form::fixed(Spelling::Computed, computed(operation, left, right))
            }
            (Form::Entire { root }, Form::Fixed { spelling, number }) => {
                Form::offset(root, operation, spelling, number)
            }
            _ => Form::Other,
        }
    }

    // A variable, and an operator and a constant behind it.
    fn offset(root: u32, operation: Dyadic, spelling: Spelling, number: i32) -> Form
        ensures { result ≡ offset_form root operation spelling number }
    {
        match operation {
            Dyadic::Plus { .. } => Form::Moved {
                root,
                spelling,
                number,
            },
            Dyadic::Minus { .. } => Form::moved(root, spelling, integer(-i64::from(number))),
            _ => Form::Other,
        }
    }

    // A variable plus a number, if there is one.
    fn moved(root: u32, spelling: Spelling, number: Option<i32>) -> Form
        ensures { result ≡ moved_form root spelling number }
    {
        match number {
            Some(number) => Form::Moved {
                root,
                spelling,
                number,
            },
            None => Form::Other,
        }
    }

    // Its bound, if it is a bound form by the rules of a version.
    fn bound(self, version: Version) -> Option<Bound>
        ensures { said_form result ≡ bound_of version self }
    {
        match self {
            Form::Fixed { spelling, number } => {
                spelling.stands(version).then_some(Bound::constant(number))
            }
            Form::Entire { root } => Some(Bound::plus(root, 0)),
            Form::Moved {
                root,
                spelling,
                number,
            } => spelling
                .stands(version)
                .then_some(Bound::plus(root, number)),
            Form::Other => None,
        }
    }
}

impl Spelling {
    // Whether a number that is spelled so stands in a bound form.
    fn stands(self, version: Version) -> bool
        ensures { result ≡ stands version self }
    {
        match self {
            Spelling::Literal => true,
            Spelling::Signed => true,
            Spelling::Computed => version.has(Extension::Constants),
        }
    }
}

// How the result of an operation on a constant is spelled.
fn operated_spelling(operation: Monadic, spelling: Spelling) -> Spelling
    ensures { result ≡ operated_spelling operation spelling }
{
    match (operation, spelling) {
        (Monadic::Plain(Calculation::Same | Calculation::Negative), Spelling::Literal) =>
            Spelling::Signed,
        _ => Spelling::Computed,
    }
}

// What an operation gives of a number, if its test is passed.
fn result_of(operation: Monadic, number: i32) -> i64
    ensures { result ≡ result_of operation number }
{
    match operation {
        Monadic::Plain(does) => calculated(does, number),
        Monadic::Tested { does, .. } => shifted(does, number),
    }
}

// What is calculated from a number.
fn calculated(does: Calculation, number: i32) -> i64
    ensures { result ≡ calculated does number }
{
    let ordinal = Ordinal::new(number);
    match does {
        Calculation::Same => ordinal.number(),
        Calculation::Negative => ordinal.negated().number(),
        Calculation::Complement => Ordinal::truth(!ordinal.is_true()).number(),
        Calculation::Absolute => ordinal.magnitude().number(),
        Calculation::Square { .. } => product(number, number),
        Calculation::Parity => Ordinal::truth(ordinal.is_odd()).number(),
        Calculation::Ordinal => ordinal.number(),
    }
}

// The result behind a test.
fn shifted(does: Shift, number: i32) -> i64
    ensures { result ≡ shifted does number }
{
    match does {
        Shift::Same => i64::from(number),
        Shift::Next => i64::from(number) + 1,
        Shift::Previous => i64::from(number) - 1,
    }
}

// What is calculated from two constants, if it is a number of integer.
fn computed(operation: Dyadic, left: i32, right: i32) -> Option<i32>
    ensures { result ≡ computed operation left right }
{
    match operation {
        Dyadic::Plus { .. } => integer(i64::from(left) + i64::from(right)),
        Dyadic::Minus { .. } => integer(i64::from(left) - i64::from(right)),
        Dyadic::Times { .. } => integer(product(left, right)),
        Dyadic::Div { .. } => quotient(i64::from(left), i64::from(right)),
        Dyadic::Mod { .. } => remainder(i64::from(left), i64::from(right)),
        _ => None,
    }
}

// The product, which 64 bits always hold.
fn product(left: i32, right: i32) -> i64
    ensures { result ≡ left *ℤ right }
{
    i64::from(left) * i64::from(right)
}

// The quotient, if there is one.
fn quotient(left: i64, right: i64) -> Option<i32>
    ensures { result ≡ quotient left right }
{
    match left.checked_div(right) {
        Some(number) => integer(number),
        None => None,
    }
}

// The remainder, if there is one.
fn remainder(left: i64, right: i64) -> Option<i32>
    ensures { result ≡ remainder left right }
{
    if right < 1 {
        return None;
    }
    integer(left.rem_euclid(right))
}

// A number, if it is one of integer.
fn integer(number: i64) -> Option<i32>
    ensures { result ≡ integer_or_none number }
{
    match i32::try_from(number) {
        Ok(inside) if inside != i32::MIN => Some(inside),
        _ => None,
    }
}
