ghost use Rattle.std.specs.Prelude.{◌≡◌, ◌+◌, ◌*◌, ◌%◌, ◌^◌, ◌++◌, IfOk, string_bytes};
ghost use Rattle.std.specs.List.{repeat};

use std::alloc::{AllocError, Global};

/// A text and behind it another so many times.
pub fn repeated(
    alloc: Global,
    before: &str,
    middle: &str,
    count: usize,
) -> Result<String, AllocError>
    ensures { IfOk result (λ text. string_bytes text ≡ before.now ++ repeat count middle.now) }
{
    let mut text = String::new(alloc);
    text.push_str(before)?;
    text.push_str(middle.repeat(alloc, count)?.as_str())?;
    Ok(text)
}

/// The next of a row of numbers that look random.
pub fn next_random(seed: u64) -> u64
    ensures { result ≡ (seed * 6364136223846793005 + 1442695040888963407) % 2 ^ 64 }
{
    seed.wrapping_mul(6364136223846793005)
        .wrapping_add(1442695040888963407)
}
