ghost use Rattle.std.specs.Prelude.{◌≡◌};
ghost use Rattle.scopes.specs.Scopes.{Knows};
ghost use Rattle.typing.specs.Names.{folded};
ghost use Rattle.typing.specs.Outcomes.{TypingTakes};
ghost use Rattle.typing.specs.Passing.{each};
ghost use Rattle.typing.specs.Typing as spec;
ghost use Rattle.declarations.specs.Known.{AreKnown};

use crate::Typed;
use scopes::{Denotation, File};
use syntax_tree::Name;
use typed_tree::TypeFault;
use typing::{Typer, folded};

/// Passes the program parameters, in the order of the text.
pub(crate) fn declare_parameters(typer: &mut Typer, names: &[Name]) -> Typed<()>
    requires known { AreKnown names.now typer.old.regions }
    ensures { TypingTakes (each spec.parameter_of_program names.now typer.old) result typer.new }
{
    for name in names {
        declare_parameter(typer, name)?;
    }
    Ok(())
}

// A program parameter: files alone may be (K8), each of them once (S1).
#[tactic(auto, unfolding(typing::specs::Typing::parameter_of_program))]
fn declare_parameter(typer: &mut Typer, name: &Name) -> Typed<()>
    requires known { Knows typer.old.regions (folded name.now.text.now) }
    ensures { TypingTakes (spec.parameter_of_program name.now typer.old) result typer.new }
{
    let key = folded(typer.alloc, name.text)?;
    let Some(file) = file_of(&key) else {
        return Err(TypeFault::NotProgramParameter(name.place));
    };
    typer.declare(name, Denotation::File(file))?;
    typer.give_file(file);
    Ok(())
}

// The file of a name in small letters, if it is that of one.
fn file_of(name: &[u8]) -> Option<File>
    ensures { result ≡ spec.file_of name.now }
{
    if name == b"input".as_slice() {
        Some(File::Input)
    } else if name == b"output".as_slice() {
        Some(File::Output)
    } else {
        None
    }
}
