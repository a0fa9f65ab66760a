ghost use Rattle.std.specs.Prelude.{◌≡◌, option_map};
ghost use Rattle.meaning.specs.Meaning.{is_among};
ghost use Rattle.interpreter_state.specs.Answers.{arm_at};

use meaning::Ordinal;
use typed_tree::Stmt;

/// The arm of a case at a value of its index, if any constants hold it (ISO 7185:1990, 6.8.3.5).
pub fn arm_at<'t>(constants: &[Vec<i32>], arms: &'t [Stmt], index: Ordinal) -> Option<&'t Stmt>
    ensures { option_map (λ arm. arm.now) result ≡ arm_at constants.now arms.now index }
{
    for (place, row) in constants.iter().enumerate() {
        if is_among(row, index) {
            return arms.get(place);
        }
    }
    None
}

// Whether a row of case constants holds a value.
fn is_among(row: &[i32], index: Ordinal) -> bool
    ensures { result ≡ is_among row.now index }
{
    row.iter()
        .any(|constant| Ordinal::new(*constant).equals(index))
}
