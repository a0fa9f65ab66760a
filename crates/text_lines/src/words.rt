ghost use Rattle.std.specs.Prelude.{◌≡◌, ◌==◌, option_map, position};
ghost use Rattle.text_lines.specs.Words as spec;

/// What stands before the first blank, and what stands behind it.
pub fn parted(words: &[u8]) -> Option<(&[u8], &[u8])>
    ensures { option_map (λ parts. (parts.0.now, parts.1.now)) result ≡ spec.parted words.now }
{
    match blank(words) {
        None => None,
        Some(end) => Some((&words[..end], &words[end + 1..])),
    }
}

/// Where the first blank stands.
pub fn blank(words: &[u8]) -> Option<usize>
    ensures { result ≡ position (λ byte. byte == 32) words.now }
{
    words.iter().position(|byte| *byte == b' ')
}
