ghost use Rattle.std.specs.Prelude.{IfErr};
ghost use Rattle.report.specs.Courses.{CourseGoes, untaken};

use crate::telling::untaken;
use command_line::WordsFault;
use outside::Outside;
use std::alloc::Global;

/// Runs a program by the words of its command, or answers that they can't be had. Gives the status.
pub fn run_program<O: Outside, P: Fn(Global, &[&str], &mut O) -> u8>(
    alloc: Global,
    texts: Result<Vec<String>, WordsFault>,
    program: P,
    outside: &mut O,
) -> u8
    requires { P.IsAlwaysCallable program }
    ensures { IfErr texts (λ fault. CourseGoes (O.acts outside.old) (O.acts outside.new) result (untaken fault)) }
{
    let texts = match texts {
        Ok(texts) => texts,
        Err(fault) => return untaken(alloc, fault, outside),
    };
    match texts.iter().map(String::as_str).collect::<Vec<&str>>(alloc) {
        Ok(words) => program(alloc, &words, outside),
        Err(refused) => untaken(alloc, refused.into(), outside),
    }
}
