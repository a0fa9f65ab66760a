ghost use Rattle.std.specs.Prelude.{◌≡◌, ◌⊎◌, [], Ok, Err, Some, None, IfOk, MatchOption, MatchResult, option_map};
ghost use Rattle.std.specs.Prelude.{if◌then◌else◌};
ghost use Rattle.memory.specs.Refused.{the_refusal};
ghost use Rattle.typed_tree.specs.declared.fault.TypeFault.TheVariants.{Memory};
ghost use Rattle.std.specs.List.{list_all};
ghost use Rattle.typed_tree.specs.WellFormed.{is_character};
ghost use Rattle.typing.specs.Apostrophes.{BeginsWith, closed};
ghost use Rattle.typing.specs.Strings.{characters, characters_behind, string_characters};

use crate::{Made, Typer, value_of};
use place::Place;
use scopes::Denotation;
use std::alloc::{AllocError, Global};
use typed_tree::TypeFault;
use types::{TypeForm, TypeId, TypeTable};

impl Typer {
    ghost use Rattle.typing.specs.Outcomes.{TypingTakes, Makes};
    ghost use Rattle.typing.specs.Steps as step;
    ghost use Rattle.typing.specs.Strings as spec;

    /// The type of a string of so many characters, of its own: packed array [1..length] of char (6.4.3.2). Y2 at the
    /// place where it has too many.
    #[tactic(auto, unfolding(crate::specs::Strings::string_type))]
    pub fn string_type(&mut self, place: Place, length: usize) -> Made<TypeId>
        ensures { TypingTakes (spec.string_type place length self.old) result self.new }
    {
        let (host, first) = (TypeTable::INTEGER, 1);
        let last = value_of(length, place)?;
        let index = self.add_type(place, TypeForm::Subrange { host, first, last })?;
        self.add_type(
            place,
            TypeForm::Array {
                packed: true,
                index,
                element: TypeTable::CHAR,
            },
        )
    }

    /// The characters that have a number.
    #[tactic(auto, unfolding(crate::specs::Steps::text_at))]
    pub fn text_at(&self, number: usize) -> Made<Vec<u8>>
        ensures { Makes (λ text. text.items) (λ text. []) (step.text_at number self.now) result self.now }
    {
        match self.texts.get(number) {
            Some(text) => Ok(text.clone()?),
            None => Ok(Vec::new(self.alloc)),
        }
    }

    // What a constant is, by the characters of its string.
    #[tactic(auto, unfolding(crate::specs::Strings::string_constant))]
    pub(crate) fn string_constant(&mut self, place: Place, characters: Vec<u8>) -> Made<Denotation>
        ensures { TypingTakes (spec.string_constant place characters.items self.old) result self.new }
    {
        if let [character] = characters.as_slice() {
            return Ok(Denotation::Constant {
                value: i32::from(*character),
                type_id: TypeTable::CHAR,
            });
        }
        let type_id = self.string_type(place, characters.len())?;
        let number = self.keep_text(characters)?;
        Ok(Denotation::Text { number, type_id })
    }

    // These characters get the next number.
    #[tactic(auto, unfolding(crate::specs::Steps::keep_text))]
    fn keep_text(&mut self, characters: Vec<u8>) -> Made<usize>
        ensures { TypingTakes (step.keep_text characters.items self.old) result self.new }
    {
        let number = self.texts.len();
        self.texts.push(characters)?;
        Ok(number)
    }
}

/// The characters of a string between its apostrophes, two of which stand for one (6.1.7). There are one or more, each
/// of type char; K1 at the place where the text is no such string.
pub fn characters(alloc: Global, place: Place, text: &[u8]) -> Made<Vec<u8>>
    ensures { MatchResult result
        (λ made. string_characters place text.now ≡ Ok made.items)
        (λ why. (why ≡ Memory the_refusal) ⊎ (string_characters place text.now ≡ Err why)) }
{
    let characters = undoubled(alloc, text)?.ok_or(TypeFault::Mismatch(place))?;
    if characters.is_empty() || !are_of_char(&characters) {
        return Err(TypeFault::Mismatch(place));
    }
    Ok(characters)
}

// Whether each is of type char.
fn are_of_char(characters: &[u8]) -> bool
    ensures { result ≡ list_all is_character characters.now }
{
    characters.iter().all(|character| *character < 128)
}

// Those of any bytes, if they stand between apostrophes.
fn undoubled(alloc: Global, text: &[u8]) -> Result<Option<Vec<u8>>, AllocError>
    ensures { IfOk result (λ found. option_map (λ made. made.items) found ≡ characters text.now) }
{
    match text {
        [b'\'', behind @ ..] => undoubled_behind(alloc, behind),
        _ => Ok(None),
    }
}

// The same behind the apostrophe that opens a string.
fn undoubled_behind(alloc: Global, text: &[u8]) -> Result<Option<Vec<u8>>, AllocError>
    ensures { IfOk result (λ found. option_map (λ made. made.items) found ≡ characters_behind text.now) }
{
    let mut made = Vec::new(alloc);
    let mut rest = text;
    while let Some((character, more)) = first_character(rest) {
        made.push(character)?;
        rest = more;
    }
    if closes(rest) {
        Ok(Some(made))
    } else {
        Ok(None)
    }
}

// The first of the characters that stand there, and what stands behind it.
fn first_character(text: &[u8]) -> Option<(u8, &[u8])>
    ensures { MatchOption result (characters_behind text.now ≡ closed text.now)
        (λ found. BeginsWith found.0 found.1.now text.now) }
{
    match text {
        [b'\'', b'\'', more @ ..] => Some((b'\'', more)),
        [b'\'', ..] | [] => None,
        [character, more @ ..] => Some((*character, more)),
    }
}

// Whether nothing stands there but the apostrophe that closes a string.
fn closes(text: &[u8]) -> bool
    ensures { closed text.now ≡ (if result then Some [] else None) }
{
    matches!(text, [b'\''])
}
