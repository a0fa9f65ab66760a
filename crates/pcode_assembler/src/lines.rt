ghost use Rattle.std.specs.Prelude.{◌≡◌, [], ◌∷◌, ◌<◌, MatchOption, length};
ghost use Rattle.std.specs.Result.{result_err};
ghost use Rattle.pcode_assembler.specs.Text.{body, end_fault};

use crate::{AsmFault, AsmRule};
use text_lines::lines::next_line;

/// Refuses a text whose last line isn't `end` with its line end.
pub(crate) fn check_end(text: &[u8]) -> Result<(), AsmFault>
    ensures { result_err result ≡ end_fault text.now }
{
    let mut is_end = false;
    let mut count = 0;
    let mut rest = text;
    while let Some((line, more)) = next_line(rest) {
        is_end = line.ended && line.bytes == b"end".as_slice();
        count += 1;
        rest = more;
    }
    if is_end {
        return Ok(());
    }
    Err(AsmFault::Refused {
        rule: AsmRule::CutOff,
        line: 1.max(count),
    })
}

/// The first line of a text that isn't its last, and what follows it.
pub(crate) fn next_above_last(text: &[u8]) -> Option<(&[u8], &[u8])>
    ensures { MatchOption result (body text.now ≡ [])
        (λ r. (body text.now ≡ r.0.now ∷ body r.1.now) × (length r.1.now < length text.now)) }
{
    let (line, more) = next_line(text)?;
    if more.is_empty() {
        return None;
    }
    Some((line.bytes, more))
}
