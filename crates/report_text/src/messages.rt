ghost use Rattle.std.specs.Prelude.{◌≡◌, ◌<◌, ◌+◌, ◌-◌, ◌^◌, if◌then◌else◌};
ghost use Rattle.report_text.specs.Messages.{Gets};

use stack_machine::bytes::Sink;

/// Writes the text in the parts that the writer takes, up to its first failure, and tells whether it took
/// all of it.
pub fn put<E: Sink>(text: &[u8], errors: &mut E) -> bool
    requires { (E.got errors.old).failures < 2 ^ 64 - 1 }
    ensures failures { (E.got errors.new).failures ≡ (E.got errors.old).failures + (if result then 0 else 1) }
    ensures told { Gets (E.got errors.old) (E.got errors.new) text.now }
{
    let mut rest = text;
    while !rest.is_empty() {
        match errors.write(rest) {
            Ok(count) if count > 0 => rest = &rest[count..],
            _ => return false,
        }
    }
    true
}
