//! The records of `with` statements round a place (ISO 7185:1990, 6.8.3.10), and the variables that names denote.
ghost use Rattle.std.specs.Prelude.{◌≡◌, ◌⊎◌, ◌++◌, [], IfOk, MatchResult, OnOk, Ok, Err};
ghost use Rattle.std.specs.Prelude.{flat_map, length, map, slice_get};
ghost use Rattle.types.specs.Forms.{field_form};
ghost use Rattle.types.specs.Types.{form_at};
ghost use Rattle.memory.specs.Refused.{the_refusal};
ghost use Rattle.typed_tree.specs.declared.fault.TypeFault.TheVariants.{Memory};
ghost use Rattle.typing.specs.Steps.{definition_of, field_definitions};
ghost use Rattle.typing.specs.View.{definition, definition_or_none};

use crate::{MOST_ENTRIES, Made, Typer};
use place::Place;
use scopes::{Definition, Denotation};
use std::alloc::{AllocError, Global};
use typed_tree::{Base, PathStep, Selector, TypeFault};
use types::{Field, TypeForm, TypeId, TypeTable};

/// A record of a `with` statement.
#[derive(Drop)]
pub struct OpenRecord {
    /// The root number of the variable in which it lies.
    pub root: u32,
    /// The way on which it lies there.
    pub steps: Vec<PathStep>,
    pub type_id: TypeId,
}

/// Where an access begins that a name denotes.
#[derive(Drop)]
pub struct DenotedVariable {
    /// The root number of the variable, or of the one in which the record lies.
    pub root: u32,
    pub base: Base,
    /// The type of the variable or of the record.
    pub from: TypeId,
    /// From there to what the name denotes: none to a variable, and one to a field.
    pub selectors: Vec<Selector>,
    /// The type of what the name denotes.
    pub type_id: TypeId,
}

impl Typer {
    ghost use Rattle.typing.specs.Expressions as spec;
    ghost use Rattle.typing.specs.Outcomes.{Makes, TypingTakes};
    ghost use Rattle.typing.specs.Passing.{after};
    ghost use Rattle.typing.specs.Steps as step;
    ghost use Rattle.typing.specs.View.{denoted_of, record_of};

    /// The variable, or the field of a record, that a name at a place denotes: K2 where it denotes none.
    #[tactic(auto, unfolding(crate::specs::Steps::record_at))]
    pub fn variable_of(&self, place: Place, denotation: Denotation) -> Made<DenotedVariable>
        ensures { Makes denoted_of (λ variable. []) (spec.variable_of place denotation self.now) result self.now }
    {
        match denotation {
            Denotation::Variable { root, type_id } => Ok(DenotedVariable {
                root,
                base: Base::Variable,
                from: type_id,
                selectors: Vec::new(self.alloc),
                type_id,
            }),
            Denotation::Field {
                slot,
                position,
                offset,
                type_id,
            } => self.field_of(place, slot, Selector::Field { position, offset }, type_id),
            _ => Err(TypeFault::NotVariable(place)),
        }
    }

    // A field of the record of a slot.
    fn field_of(
        &self,
        place: Place,
        slot: u32,
        selector: Selector,
        type_id: TypeId,
    ) -> Made<DenotedVariable>
        ensures { MatchResult result
            (λ made. spec.field_or_none place slot selector type_id (slice_get self.now.records slot)
            ≡ Ok (denoted_of made))
            (λ why. (why ≡ Memory the_refusal)
            ⊎ (spec.field_or_none place slot selector type_id (slice_get self.now.records slot) ≡ Err why)) }
    {
        let Some(record) = self.records.get(slot as usize) else {
            return Err(TypeFault::NotVariable(place));
        };
        let mut selectors = Vec::new(self.alloc);
        selectors.push(selector)?;
        let path = Vec::from_slice(self.alloc, &record.steps)?;
        Ok(DenotedVariable {
            root: record.root,
            base: Base::Record { slot, path },
            from: record.type_id,
            selectors,
            type_id,
        })
    }

    /// How many records stand round the place, which is the slot of the next one.
    pub fn next_slot(&self) -> u32
        ensures { result ≡ length self.now.records }
    {
        self.records.len() as u32
    }

    /// A record is opened, whose fields are names from here on: K1 at the place where its type is none.
    #[tactic(auto, unfolding(crate::specs::Steps::open_record))]
    pub fn open_record(&mut self, place: Place, opened: OpenRecord) -> Made<()>
        ensures { TypingTakes (step.open_record place (record_of opened) self.old) result self.new }
    {
        if self.records.len() >= MOST_ENTRIES as usize {
            return Err(TypeFault::TooMany(place));
        }
        let slot = self.records.len() as u32;
        let fields = field_definitions(self.alloc, &self.types, place, opened.type_id, slot)?;
        self.scopes.open_fields(self.alloc, &fields)?;
        self.records.push(opened)?;
        Ok(())
    }

    /// The latest one is closed.
    #[tactic(auto, unfolding(crate::specs::Steps::close_record))]
    pub fn close_record(&mut self)
        ensures { step.close_record self.old ≡ Ok (after tt [] self.new) }
    {
        let _ = self.records.pop();
        let _ = self.scopes.close(self.alloc);
    }
}

// What the names of the fields of a type denote: K1 at the place where it is no record.
fn field_definitions(
    alloc: Global,
    types: &TypeTable,
    place: Place,
    id: TypeId,
    slot: u32,
) -> Made<Vec<Definition>>
    ensures { MatchResult result
        (λ made. field_definitions types.now place id slot (form_at types.now id)
        ≡ Ok (map definition made.items))
        (λ why. (why ≡ Memory the_refusal)
        ⊎ (field_definitions types.now place id slot (form_at types.now id) ≡ Err why)) }
{
    match types.form(id) {
        Some(TypeForm::Record { fields, .. }) => {
            Ok(definitions_of(alloc, types, id, slot, fields)?)
        }
        _ => Err(TypeFault::Mismatch(place)),
    }
}

// Those of these fields.
fn definitions_of(
    alloc: Global,
    types: &TypeTable,
    id: TypeId,
    slot: u32,
    fields: &[Field],
) -> Result<Vec<Definition>, AllocError>
    ensures { IfOk result (λ made. map definition made.items
        ≡ flat_map (definition_of types.now id slot) (map field_form fields.now)) }
{
    let mut made = Vec::new(alloc);
    for field in fields {
        let found = definition_of(alloc, types, id, slot, field)?;
        put(&mut made, found)?;
    }
    Ok(made)
}

// That of one; none where its type doesn't stand before the record.
fn definition_of(
    alloc: Global,
    types: &TypeTable,
    id: TypeId,
    slot: u32,
    field: &Field,
) -> Result<Option<Definition>, AllocError>
    ensures { IfOk result (λ made. definition_or_none made ≡ definition_of types.now id slot (field_form field.now)) }
{
    match types.field(id, &field.name) {
        None => Ok(None),
        Some(found) => Ok(Some(Definition {
            name: Vec::from_slice(alloc, &field.name)?,
            denotation: Denotation::Field {
                slot,
                position: found.position,
                offset: found.offset,
                type_id: found.type_id,
            },
        })),
    }
}

// Puts one behind others, if there is one.
fn put(made: &mut Vec<Definition>, one: Option<Definition>) -> Result<(), AllocError>
    ensures { OnOk result (map definition made.new.items ≡ map definition made.old.items ++ definition_or_none one) }
{
    if let Some(one) = one {
        made.push(one)?;
    }
    Ok(())
}
