ghost use Rattle.std.specs.Prelude.{◌≡◌, ◌≤◌, IfSome, IsTrue};
ghost use Rattle.std.specs.Char.{is_ascii_digit};
ghost use Rattle.std.specs.List.{list_all};
ghost use Rattle.text_lines.specs.Numerals as spec;
ghost use Rattle.text_lines.specs.Numerals.{is_number};

/// The number that a word spells, if it is at most the limit: decimal digits without a leading zero.
pub fn natural(limit: u32, word: &[u8]) -> Option<u32>
    ensures read { result ≡ spec.natural limit word.now }
    ensures within { IfSome result (λ number. number ≤ limit) }
{
    if !is_number(word) {
        return None;
    }
    value_up_to(limit, word)
}

/// Whether these are decimal digits without leading zeros.
pub fn is_number(word: &[u8]) -> bool
    ensures { result ≡ is_number word.now }
{
    match word {
        [] => false,
        [first, more @ ..] if *first == b'0' => more.is_empty(),
        _ => are_digits(word),
    }
}

fn are_digits(word: &[u8]) -> bool
    ensures { result ≡ list_all is_ascii_digit word.now }
{
    word.iter().all(u8::is_ascii_digit)
}

/// The value of digits, if it is at most the limit.
fn value_up_to(limit: u32, digits: &[u8]) -> Option<u32>
    requires { IsTrue (is_number digits.now) }
    ensures read { result ≡ spec.value_up_to limit digits.now }
    ensures within { IfSome result (λ number. number ≤ limit) }
{
    let mut value = 0;
    for digit in digits {
        value = value * 10 + u64::from(*digit - b'0');
        if value > u64::from(limit) {
            return None;
        }
    }
    Some(value as u32)
}
