ghost use Rattle.std.specs.Prelude.{◌≡◌, ◌==◌, [], ◌∷◌, ◌<◌, MatchOption, length, position};
ghost use Rattle.text_lines.specs.Lines.{lines};

/// A line of a text, without its line end.
#[derive(Clone, Copy)]
pub struct Line<'a> {
    pub bytes: &'a [u8],
    /// Whether it has a line end.
    pub ended: bool,
}

/// The first line of a text, and what follows it.
pub fn next_line(text: &[u8]) -> Option<(Line<'_>, &[u8])>
    ensures { MatchOption result (lines text.now ≡ [])
        (λ r. (lines text.now ≡ record { bytes = r.0.bytes.now; ended = r.0.ended } ∷ lines r.1.now)
        × (length r.1.now < length text.now)) }
{
    if text.is_empty() {
        return None;
    }
    match line_end(text) {
        None => Some((
            Line {
                bytes: text,
                ended: false,
            },
            &text[text.len()..],
        )),
        Some(end) => Some((
            Line {
                bytes: &text[..end],
                ended: true,
            },
            &text[end + 1..],
        )),
    }
}

/// Where the first line's end stands.
fn line_end(text: &[u8]) -> Option<usize>
    ensures { result ≡ position (λ b. b == 10) text.now }
{
    text.iter().position(|byte| *byte == b'\n')
}
